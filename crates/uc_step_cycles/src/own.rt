//! The cells that an instance has itself.

ghost use Rattle.std.specs.Prelude.{◌≡◌, ◌||◌, ◌&&◌, ℕ, Bool, List, nat_eq, IfOk, OnOk};
ghost use Rattle.std.specs.List.{list_any};
ghost use Rattle.uc_meaning.specs.Lookup.{names_one};
ghost use Rattle.uc_uses.specs.declared.tree.Step.{Step as StepOf};
ghost use Rattle.uc_step_cycles.specs.Cells.{Enters, declares_cell, is_cell_kind};

use std::alloc::{AllocError, Global};
use uc_items::Items;
use uc_names::Firsts;
use uc_syntax::{Decl, Identifier, VariableKind};
use uc_uses::Step;

/// The cells of a node with these declarations, by their names, behind those of the nodes before it.
pub(crate) fn own_cells(
    alloc: Global,
    node: usize,
    is_root: bool,
    bound: &Firsts<Option<u32>>,
    declarations: &[Decl],
    cells: &mut Items<Step>,
) -> Result<Firsts<usize>, AllocError>
    ensures { IfOk result (λ own. Enters node cells.old (λ x. list_any (declares_cell is_root bound.now x) declarations.now) own cells.new) }
{
    let mut own = Firsts::new(alloc);
    for declaration in declarations {
        enter_declared(node, is_root, bound, declaration, &mut own, cells)?;
    }
    Ok(own)
}

fn enter_declared(
    node: usize,
    is_root: bool,
    bound: &Firsts<Option<u32>>,
    declaration: &Decl,
    own: &mut Firsts<usize>,
    cells: &mut Items<Step>,
) -> Result<(), AllocError>
    ensures { OnOk result ((before : List StepOf) (expect : ℕ → Bool) → Enters node before expect own.old cells.old → Enters node before (λ x. expect x || declares_cell is_root bound.now x declaration.now) own.new cells.new) }
{
    match declaration {
        Decl::Variables(_, kind, names, _) => {
            let names = names.as_slice();
            enter_names(node, is_root, bound, *kind, names, own, cells)?;
            Ok(())
        }
        _ => Ok(()),
    }
}

fn enter_names(
    node: usize,
    is_root: bool,
    bound: &Firsts<Option<u32>>,
    kind: VariableKind,
    names: &[Identifier],
    own: &mut Firsts<usize>,
    cells: &mut Items<Step>,
) -> Result<(), AllocError>
    ensures { OnOk result ((before : List StepOf) (expect : ℕ → Bool) → Enters node before expect own.old cells.old → Enters node before (λ x. expect x || (names_one x names.now && is_cell_kind is_root bound.now kind x)) own.new cells.new) }
{
    for identifier in names {
        let name = identifier.name;
        let is_cell = is_cell(is_root, bound, kind, name);
        enter_where(is_cell, Step { node, name }, own, cells)?;
    }
    Ok(())
}

/// Whether a variable is a cell of its instance: an input is one in the root alone, and an output where nothing is bound to it.
fn is_cell(is_root: bool, bound: &Firsts<Option<u32>>, kind: VariableKind, name: u32) -> bool
    ensures { result ≡ is_cell_kind is_root bound.now kind name }
{
    match kind {
        VariableKind::Variable => true,
        VariableKind::Input => is_root,
        VariableKind::Output => bound.get(name).is_none(),
        VariableKind::Constant => false,
    }
}

/// Enters a cell, unless there is one of its name.
fn enter_where(
    is_cell: bool,
    cell: Step,
    own: &mut Firsts<usize>,
    cells: &mut Items<Step>,
) -> Result<(), AllocError>
    ensures { OnOk result ((before : List StepOf) (expect : ℕ → Bool) → Enters cell.node before expect own.old cells.old → Enters cell.node before (λ x. expect x || (nat_eq cell.name x && is_cell)) own.new cells.new) }
{
    if !is_cell {
        return Ok(());
    }
    if own.get(cell.name).is_some() {
        return Ok(());
    }
    let number = cells.len();
    cells.push(cell)?;
    own.enter(cell.name, Some(number))?;
    Ok(())
}
