//! Which cells expressions read.

ghost use Rattle.std.specs.Prelude.{◌≡◌, not, nat_eq};
ghost use Rattle.std.specs.List.{list_any, list_all};
ghost use Rattle.uc_flat_code.specs.Code.{spares};

use uc_flat::Expression;

/// Whether an expression reads none of the cells.
#[cycle(spares)]
#[tactic(auto, using(crate::proofs::Sparing::spares_cell, crate::proofs::Sparing::spares_apply))]
pub(crate) fn spares(cells: &[u32], e: &Expression) -> bool
    ensures { result ≡ spares cells.now e.now }
{
    match e {
        Expression::Cell(k) => has_not(cells, *k),
        Expression::Apply(_, parts) => all_spare(cells, parts.as_slice()),
    }
}

#[cycle(spares)]
fn all_spare(cells: &[u32], parts: &[Expression]) -> bool
    ensures { result ≡ list_all (λ e. spares cells.now e) parts.now }
{
    for part in parts {
        if !spares(cells, part) {
            return false;
        }
    }
    true
}

fn has_not(cells: &[u32], k: u32) -> bool
    ensures { result ≡ not (list_any (λ c. nat_eq c k) cells.now) }
{
    !has(cells, k)
}

fn has(cells: &[u32], k: u32) -> bool
    ensures { result ≡ list_any (λ c. nat_eq c k) cells.now }
{
    cells.iter().any(|cell| *cell == k)
}
