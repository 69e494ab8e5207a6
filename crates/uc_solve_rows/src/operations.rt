//! The operations on booleans and bit-vectors, by the types of their parts.

ghost use Rattle.std.specs.Prelude.{◌≡◌, ◌≤◌, ◌+◌, ℕ, true, [], ◌∷◌};
ghost use Rattle.uc_values.specs.declared.ty.Ty.TheVariants.{Bool as boolean, Bv};
ghost use Rattle.uc_ops.specs.Typing.{Suits, type_of};
ghost use Rattle.uc_blast.specs.Words.{is_bits};

use uc_terms::Op;

/// On two bit-vectors of one width.
#[derive(Clone, Copy)]
pub(crate) enum Pair {
    Add,
    Sub,
    Mul,
    And,
    Or,
    Xor,
    Shl,
    Lshr,
    Ashr,
    Eq,
    Slt,
    Sle,
    Ult,
    Ule,
}

/// On a bit-vector, giving one of its width.
#[derive(Clone, Copy)]
pub(crate) enum Single {
    Neg,
    Not,
}

/// That adds bits to a bit-vector.
#[derive(Clone, Copy)]
pub(crate) enum Extension {
    Zero,
    Sign,
}

/// On one, two or three booleans.
#[derive(Clone, Copy)]
pub(crate) enum Junction {
    And,
    Or,
}

pub(crate) const PAIRS: [Pair; 14] = [
    Pair::Add,
    Pair::Sub,
    Pair::Mul,
    Pair::And,
    Pair::Or,
    Pair::Xor,
    Pair::Shl,
    Pair::Lshr,
    Pair::Ashr,
    Pair::Eq,
    Pair::Slt,
    Pair::Sle,
    Pair::Ult,
    Pair::Ule,
];

pub(crate) fn pair_name(pair: Pair) -> &'static str {
    match pair {
        Pair::Add => "BvAdd",
        Pair::Sub => "BvSub",
        Pair::Mul => "BvMul",
        Pair::And => "BvAnd",
        Pair::Or => "BvOr",
        Pair::Xor => "BvXor",
        Pair::Shl => "Shl",
        Pair::Lshr => "Lshr",
        Pair::Ashr => "Ashr",
        Pair::Eq => "Eq",
        Pair::Slt => "Slt",
        Pair::Sle => "Sle",
        Pair::Ult => "Ult",
        Pair::Ule => "Ule",
    }
}

pub(crate) fn single_name(single: Single) -> &'static str {
    match single {
        Single::Neg => "BvNeg",
        Single::Not => "BvNot",
    }
}

pub(crate) fn extension_name(extension: Extension) -> &'static str {
    match extension {
        Extension::Zero => "ZeroExt",
        Extension::Sign => "SignExt",
    }
}

pub(crate) fn junction_name(junction: Junction) -> &'static str {
    match junction {
        Junction::And => "And",
        Junction::Or => "Or",
    }
}

pub(crate) fn pair_op(pair: Pair) -> Op
    ensures suits { (width : ℕ) → Suits result (Bv width ∷ Bv width ∷ []) }
    ensures bits { (width : ℕ) → is_bits (type_of result (Bv width ∷ Bv width ∷ [])) ≡ true }
{
    match pair {
        Pair::Add => Op::BvAdd,
        Pair::Sub => Op::BvSub,
        Pair::Mul => Op::BvMul,
        Pair::And => Op::BvAnd,
        Pair::Or => Op::BvOr,
        Pair::Xor => Op::BvXor,
        Pair::Shl => Op::Shl,
        Pair::Lshr => Op::Lshr,
        Pair::Ashr => Op::Ashr,
        Pair::Eq => Op::Eq,
        Pair::Slt => Op::Slt,
        Pair::Sle => Op::Sle,
        Pair::Ult => Op::Ult,
        Pair::Ule => Op::Ule,
    }
}

pub(crate) fn single_op(single: Single) -> Op
    ensures suits { (width : ℕ) → Suits result (Bv width ∷ []) }
    ensures bits { (width : ℕ) → is_bits (type_of result (Bv width ∷ [])) ≡ true }
{
    match single {
        Single::Neg => Op::BvNeg,
        Single::Not => Op::BvNot,
    }
}

/// The operation that adds so many bits.
pub(crate) fn extension_op(extension: Extension, more: u8) -> Op
    ensures suits { (width : ℕ) → width + more ≤ 64 → Suits result (Bv width ∷ []) }
    ensures bits { (width : ℕ) → is_bits (type_of result (Bv width ∷ [])) ≡ true }
{
    match extension {
        Extension::Zero => Op::ZeroExt(more),
        Extension::Sign => Op::SignExt(more),
    }
}

pub(crate) fn junction_op(junction: Junction) -> Op
    ensures one { Suits result (boolean ∷ []) }
    ensures two { Suits result (boolean ∷ boolean ∷ []) }
    ensures three { Suits result (boolean ∷ boolean ∷ boolean ∷ []) }
    ensures one_bits { is_bits (type_of result (boolean ∷ [])) ≡ true }
    ensures two_bits { is_bits (type_of result (boolean ∷ boolean ∷ [])) ≡ true }
    ensures three_bits { is_bits (type_of result (boolean ∷ boolean ∷ boolean ∷ [])) ≡ true }
{
    match junction {
        Junction::And => Op::And,
        Junction::Or => Op::Or,
    }
}
