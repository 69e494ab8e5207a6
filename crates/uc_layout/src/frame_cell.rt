//! Cells that keep their values.

ghost use Rattle.std.specs.Prelude.{◌≡◌, ◌↔◌, ℕ, List, IsTrue, IfOk};
ghost use Rattle.uc_meaning.specs.Steps.{CellPart, Keeps, is_input};
ghost use Rattle.uc_layout.specs.Kept.{lent, cell_like, written_in};

use crate::parts::keeps_parts;
use std::alloc::{AllocError, Global};
use uc_syntax::VariableKind;
use uc_values::{Ty, Value};

/// Whether a cell of a kind and a type keeps what is not written, by the fields that lead to its written parts: each part of it that neither
/// lies in a written part nor contains one. An input of main keeps nothing.
pub(crate) fn keeps_cell(
    alloc: Global,
    kind: VariableKind,
    ty: &Ty,
    inside: &[&[u32]],
    old: &Value,
    new: &Value,
) -> Result<bool, AllocError>
    ensures { IfOk result (λ keeps. (cell : ℕ) (written : List CellPart) → lent inside.now ≡ written_in cell written → (IsTrue keeps ↔ Keeps (cell_like kind ty.now) cell written old.now new.now)) }
{
    if is_input(kind) {
        return Ok(true);
    }
    keeps_parts(alloc, ty, old, new, inside)
}

fn is_input(kind: VariableKind) -> bool
    ensures { result ≡ is_input kind }
{
    matches!(kind, VariableKind::Input)
}
