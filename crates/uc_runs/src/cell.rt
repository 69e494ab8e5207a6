//! The cell that a name stands for where it is written.

ghost use Rattle.std.specs.Prelude.{◌≡◌, take};
ghost use Rattle.std.specs.Option.{option_map};
ghost use Rattle.uc_syntax.specs.declared.expression.Expr.TheViews.{out-Expr};
ghost use Rattle.uc_meaning.specs.Code.{name_of_primary, name_form, bound_name, followed, written_cell};
ghost use Rattle.uc_runs.specs.Writes.{reached_parts, cell_at};

use uc_layout::Layout;
use uc_syntax::{Expr, Primary};

/// How many outputs are bound to each other at most.
const LONGEST_CHAIN: u32 = 32;

/// A name of an instance on a path, by how many instances the path's beginning has.
#[derive(Clone, Copy)]
struct Reached {
    depth: usize,
    name: u32,
}

/// The place of the cell that a name of an instance stands for.
pub fn written_cell(layout: &Layout, path: &[u32], name: u32) -> Option<usize>
    ensures { result ≡ written_cell layout.now path.now name }
{
    followed_cell(layout, LONGEST_CHAIN, path, name)
}

/// The same, where at most so many bindings are followed upwards.
#[tactic(auto, using(crate::proofs::Followed::stays, crate::proofs::Followed::follows, crate::proofs::Followed::ends))]
fn followed_cell(layout: &Layout, below: u32, path: &[u32], name: u32) -> Option<usize>
    ensures { result ≡ cell_at layout.now (followed below layout.now (path.now, name)) }
{
    if below == 0 {
        return layout.cell_of(path, name);
    }
    match bound_name(layout, path, name) {
        Some(bound) => { followed_cell(layout, below - 1, prefix(path, bound.depth), bound.name) }
        None => layout.cell_of(path, name),
    }
}

/// The name of the parent that is bound to a name, if one is.
fn bound_name(layout: &Layout, path: &[u32], name: u32) -> Option<Reached>
    ensures { option_map (reached_parts path.now) result ≡ bound_name layout.now (path.now, name) }
{
    match layout.system().binding_of(path, name) {
        Some(bound) => match name_in(bound.expression) {
            Some(name) => Some(Reached {
                depth: bound.depth,
                name,
            }),
            None => None,
        },
        None => None,
    }
}

/// The name that an expression begins with, if it is a name and what is selected of it.
fn name_in(expression: &Expr) -> Option<u32>
    ensures { result ≡ name_form (out-Expr expression.now) }
{
    match expression {
        Expr::Selected(_, primary, _) => name_of(primary),
        _ => None,
    }
}

fn name_of(primary: &Primary<Expr>) -> Option<u32>
    ensures { result ≡ name_of_primary primary.now }
{
    match primary {
        Primary::Name(name, _) => Some(*name),
        _ => None,
    }
}

#[tactic(auto, using(std::proofs::lemmas::List::take_all))]
fn prefix(path: &[u32], depth: usize) -> &[u32]
    ensures { result.now ≡ take depth path.now }
{
    if depth >= path.len() {
        path
    } else {
        &path[..depth]
    }
}
