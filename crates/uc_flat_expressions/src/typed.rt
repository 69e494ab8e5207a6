//! Expressions over cells with their types, and what names stand for.

ghost use Rattle.std.specs.Prelude.{◌≡◌};

use std::alloc::AllocError;
use uc_flat::Expression;
use uc_values::Ty;

/// An expression over cells with its type, and the number that it is, where it is a literal whole number.
#[derive(Drop)]
pub struct TypedExpression {
    pub expression: Expression,
    pub ty: Ty,
    pub number: Option<u8>,
}

/// An arm of a conditional: its condition and its value.
#[derive(Drop)]
pub struct TypedArm {
    pub condition: TypedExpression,
    pub value: TypedExpression,
}

/// What a name stands for.
#[derive(Drop)]
pub enum Meant {
    /// No value that is built.
    Unknown,
    /// A cell: its number in the old state, that in the new one where the new state may be read, and its type.
    Cell(u32, Option<u32>, Ty),
    /// A label: the number of its enum, how many labels that has, and the label's place.
    Label(u32, u32, u32),
    /// A constant: its number and its type.
    Constant(u32, Ty),
}

/// Why an expression has no expression over cells.
#[derive(Clone, Copy, Debug, PartialEq, Eq)]
pub enum FlatError {
    NoMemory,
    /// A form or a type that is not built.
    NotBuilt,
}

impl From<AllocError> for FlatError {
    ghost use Rattle.uc_flat_expressions.specs.declared.typed.FlatError.TheVariants.{NoMemory};

    ghost from_gives = { λ _ e. e ≡ NoMemory };

    fn from(_: AllocError) -> FlatError {
        FlatError::NoMemory
    }
}
