//! What a chain says, from what its operands say.

ghost use Rattle.std.specs.Prelude.{◌≡◌, ◌++◌, ◌∷◌, [], IfOk, OnOk};
ghost use Rattle.uc_values.specs.declared.ty.Ty.{Ty};
ghost use Rattle.uc_values.specs.declared.value.Value.{Value};
ghost use Rattle.uc_meaning.specs.Operators.{holds};
ghost use Rattle.uc_operators.specs.Overflows.{first_wide, TellsWide};
ghost use Rattle.uc_meaning.specs.Shapes.{chain_reading, chain_operations};
ghost use Rattle.uc_readings.specs.Readings.{reading_of};

use std::alloc::{AllocError, Global};
use uc_items::Items;
use uc_meaning::Chain;
use uc_operators::{BitOperator, EvalError, all_hold, any_holds, equivalent, holds, implied};
use uc_readings::{Said, bitwise, joined, multiple, total, truth};
use uc_values::{Ty, Value};

/// The types and the values of several expressions.
#[derive(Drop)]
pub(crate) struct Operands {
    pub types: Items<Ty>,
    pub values: Items<Value>,
}

impl Operands {
    pub(crate) fn new(alloc: Global) -> Operands
        ensures types { result.types ≡ [] }
        ensures values { result.values ≡ [] }
    {
        Operands {
            types: Items::new(alloc),
            values: Items::new(alloc),
        }
    }

    pub(crate) fn push(&mut self, said: Said) -> Result<(), AllocError>
        ensures types { OnOk result (self.new.types ≡ self.old.types ++ said.ty ∷ []) }
        ensures values { OnOk result (self.new.values ≡ self.old.values ++ said.value ∷ []) }
    {
        let Said { ty, value } = said;
        self.types.push(ty)?;
        self.values.push(value)?;
        Ok(())
    }
}

/// What a chain says of its operands.
pub(crate) fn chained(
    alloc: Global,
    chain: Chain<'_>,
    operands: &Operands,
) -> Result<Said, EvalError>
    ensures value { IfOk result (λ r. reading_of r ≡ chain_reading chain.entry operands.now.types operands.now.values) }
    ensures wide { TellsWide (first_wide (chain_operations chain.entry operands.now.values)) result }
{
    let types = operands.types.as_slice();
    let values = operands.values.as_slice();
    match chain {
        Chain::Iff => Ok(truth(equivalent(values))),
        Chain::Implies => Ok(truth(implied(values))),
        Chain::Or => Ok(truth(any_holds(values))),
        Chain::And => Ok(truth(all_hold(values))),
        Chain::BitOr => Ok(bitwise(alloc, BitOperator::Or, types, values)?),
        Chain::BitXor => Ok(bitwise(alloc, BitOperator::Xor, types, values)?),
        Chain::BitAnd => Ok(bitwise(alloc, BitOperator::And, types, values)?),
        Chain::Concat => Ok(joined(alloc, types, values)?),
        Chain::Sum(signs) => total(alloc, signs, types, values),
        Chain::Product => multiple(alloc, types, values),
    }
}

/// Whether a value is true.
pub(crate) fn is_held(said: Said) -> bool
    ensures { result ≡ holds said.value }
{
    holds(&said.value)
}

/// The value under another type.
pub(crate) fn retyped(ty: Ty, said: Said) -> Said
    ensures { reading_of result ≡ record { type = ty; value = said.value } }
{
    let Said { ty: _, value } = said;
    Said { ty, value }
}

/// The value alone.
pub(crate) fn into_value(said: Said) -> Value
    ensures { result ≡ said.value }
{
    let Said { ty: _, value } = said;
    value
}
