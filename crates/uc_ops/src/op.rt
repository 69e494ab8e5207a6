//! The operations of terms.

use uc_values::{Ty, Value};

/// What a node does with its parts. The types and numbers of the parts that suit each operation stand in `Suits`.
pub enum Op {
    /// The number of the symbol, and its type.
    Symbol(u32, Ty),
    /// A boolean, integer, bit-vector or enum type, and a value that fits it.
    Const(Ty, Value),
    Not,
    And,
    Or,
    Eq,
    /// Condition, then, else.
    Ite,
    Add,
    /// The multiple of an integer.
    Scale(i128),
    Le,
    BvAdd,
    BvSub,
    BvMul,
    BvNeg,
    BvAnd,
    BvOr,
    BvXor,
    BvNot,
    /// The first part is the high one.
    Concat,
    /// The highest and the lowest bit that are taken, both counted from 0.
    Extract(u8, u8),
    /// How many bits are added.
    ZeroExt(u8),
    SignExt(u8),
    /// A value, and then the amount.
    Shl,
    Lshr,
    Ashr,
    Slt,
    Sle,
    Ult,
    Ule,
    /// The number of the function, and the type of its result.
    App(u32, Ty),
    /// An array and an index.
    Select,
    /// An array, an index and an element.
    Store,
    /// An index at which two arrays differ, where they differ.
    Diff,
    /// The type of the record.
    MkRec(Ty),
    /// The place of the field, from 0.
    GetField(u32),
}

impl Drop for Op {
    fn drop(self) {
        match self {
            Op::Symbol(_, ty) | Op::App(_, ty) | Op::MkRec(ty) => drop(ty),
            Op::Const(ty, value) => {
                drop(ty);
                drop(value);
            }
            Op::Not
            | Op::And
            | Op::Or
            | Op::Eq
            | Op::Ite
            | Op::Add
            | Op::Scale(_)
            | Op::Le
            | Op::BvAdd
            | Op::BvSub
            | Op::BvMul
            | Op::BvNeg
            | Op::BvAnd
            | Op::BvOr
            | Op::BvXor
            | Op::BvNot
            | Op::Concat
            | Op::Extract(_, _)
            | Op::ZeroExt(_)
            | Op::SignExt(_)
            | Op::Shl
            | Op::Lshr
            | Op::Ashr
            | Op::Slt
            | Op::Sle
            | Op::Ult
            | Op::Ule
            | Op::Select
            | Op::Store
            | Op::Diff
            | Op::GetField(_) => {}
        }
    }
}
