//! The turns of a loop.

ghost use Rattle.std.specs.Prelude.{◌≡◌, IfOk};
ghost use Rattle.uc_meaning.specs.Code.{turn_type, turns};

use crate::{turn_type, turns};
use std::alloc::{AllocError, Global};
use uc_items::{Items, beside};
use uc_meaning::Local;
use uc_syntax::RangeBound;
use uc_values::{Ty, Value, copy, copy_ty};

/// The type of a loop's variable, and the values that it takes, in order.
#[derive(Drop)]
pub struct Turns {
    pub ty: Ty,
    pub values: Items<Value>,
}

/// The turns of a loop by its bounds. Numbers past the ranges of the types are want of memory.
pub fn turns_between(alloc: Global, from: RangeBound, to: RangeBound) -> Result<Turns, AllocError>
    ensures ty { IfOk result (λ t. t.ty ≡ turn_type from) }
    ensures values { IfOk result (λ t. t.values ≡ turns from to) }
{
    let ty = turn_type(from)?;
    let (ty, values) = beside(ty, turns(alloc, from, to))?;
    Ok(Turns {
        ty,
        values: Items::from_vec(values),
    })
}

/// The variable of a loop in a turn.
pub fn turn_local(alloc: Global, name: u32, ty: &Ty, value: &Value) -> Result<Local, AllocError>
    ensures { IfOk result (λ l. l ≡ record { name = name; ty = ty.now; value = value.now }) }
{
    let ty = copy_ty(alloc, ty)?;
    let (ty, value) = beside(ty, copy(alloc, value))?;
    Ok(Local { name, ty, value })
}
