//! Terms from words: a word takes its parts from the end of a list, and what it makes goes there.

ghost use Rattle.std.specs.Prelude.{◌<◌, length, IfOk, IfSome};

use crate::compounds::{equal_pairs, equal_stores, held, held_after, second_field};
use crate::taken::{
    chosen, equal, last, leaf, on_byte, on_bytes, on_integer, on_integers, on_truth, on_truths,
    on_word,
};
use std::alloc::{AllocError, Global};
use uc_terms::{Op, TermId, Terms};
use uc_values::{Ty, Value};

/// A symbol, a constant, or an operation on the terms before it.
#[derive(Clone, Copy)]
pub(crate) enum Word {
    /// A truth, by the number of its symbol.
    Truth(u32),
    /// A bit-vector of 8 bits.
    Byte(u32),
    /// An integer.
    Integer(u32),
    True,
    False,
    /// A bit-vector of 8 bits.
    Bits(u8),
    /// A bit-vector of 16 bits.
    Wide(u16),
    Number(i128),
    Not,
    And,
    Or,
    Equal,
    If,
    Add,
    Scale(i128),
    Le,
    BvAdd,
    BvSub,
    BvMul,
    BvNeg,
    BvAnd,
    BvOr,
    BvXor,
    BvNot,
    Shl,
    Lshr,
    Ashr,
    Slt,
    Sle,
    Ult,
    Ule,
    Concat,
    /// Of 8 bits.
    Extract(u8, u8),
    /// Of 16 bits.
    ExtractWide(u8, u8),
    ZeroExt(u8),
    SignExt(u8),
    /// Of 16 bits.
    ZeroExtWide(u8),
    /// Of 16 bits.
    SignExtWide(u8),
    /// What an array holds at a byte.
    Held,
    /// What the array holds at the last of three bytes, with the second stored at the first.
    HeldAfter,
    /// Whether the array with the second byte stored at the first is that with the fourth stored at the third.
    EqualStores,
    /// The second field of a record of two bytes.
    SecondField,
    /// Whether a record of two bytes is that of the next two.
    EqualPairs,
}

/// The term that the words end with; none where they do not suit one another.
pub(crate) fn built(
    terms: &mut Terms,
    alloc: Global,
    words: &[Word],
) -> Result<Option<TermId>, AllocError>
    ensures { IfOk result (λ o. IfSome o (λ t. t < length terms.new)) }
{
    let mut stack: Vec<TermId> = Vec::new(alloc);
    for word in words {
        let Some(t) = made_by(terms, alloc, &mut stack, *word)? else {
            return Ok(None);
        };
        stack.push(t)?;
    }
    Ok(last(terms, &mut stack))
}

/// What a word makes.
#[tactic(auto, using(crate::proofs::OperandTypes::truth_symbol_suits, crate::proofs::OperandTypes::byte_symbol_suits, crate::proofs::OperandTypes::integer_symbol_suits, crate::proofs::OperandTypes::truth_suits, crate::proofs::OperandTypes::number_suits, crate::proofs::OperandTypes::byte_suits, crate::proofs::OperandTypes::wide_suits))]
fn made_by(
    terms: &mut Terms,
    alloc: Global,
    stack: &mut Vec<TermId>,
    word: Word,
) -> Result<Option<TermId>, AllocError> {
    match word {
        Word::Truth(number) => leaf(terms, alloc, Op::Symbol(number, Ty::Bool)),
        Word::Byte(number) => leaf(terms, alloc, Op::Symbol(number, Ty::Bv(8))),
        Word::Integer(number) => leaf(terms, alloc, Op::Symbol(number, Ty::Int)),
        Word::True => leaf(terms, alloc, Op::Const(Ty::Bool, Value::Bool(true))),
        Word::False => leaf(terms, alloc, Op::Const(Ty::Bool, Value::Bool(false))),
        Word::Bits(bits) => leaf(
            terms,
            alloc,
            Op::Const(Ty::Bv(8), Value::Bv(8, u64::from(bits))),
        ),
        Word::Wide(bits) => leaf(
            terms,
            alloc,
            Op::Const(Ty::Bv(16), Value::Bv(16, u64::from(bits))),
        ),
        Word::Number(number) => leaf(terms, alloc, Op::Const(Ty::Int, Value::Int(number))),
        Word::Not => on_truth(terms, alloc, stack, Op::Not),
        Word::And => on_truths(terms, alloc, stack, Op::And),
        Word::Or => on_truths(terms, alloc, stack, Op::Or),
        Word::Equal => equal(terms, alloc, stack),
        Word::If => chosen(terms, alloc, stack),
        Word::Add => on_integers(terms, alloc, stack, Op::Add),
        Word::Scale(factor) => on_integer(terms, alloc, stack, Op::Scale(factor)),
        Word::Le => on_integers(terms, alloc, stack, Op::Le),
        _ => of_bits(terms, alloc, stack, word),
    }
}

/// What a word for bit-vectors makes.
fn of_bits(
    terms: &mut Terms,
    alloc: Global,
    stack: &mut Vec<TermId>,
    word: Word,
) -> Result<Option<TermId>, AllocError> {
    match word {
        Word::BvAdd => on_bytes(terms, alloc, stack, Op::BvAdd),
        Word::BvSub => on_bytes(terms, alloc, stack, Op::BvSub),
        Word::BvMul => on_bytes(terms, alloc, stack, Op::BvMul),
        Word::BvNeg => on_byte(terms, alloc, stack, Op::BvNeg),
        Word::BvAnd => on_bytes(terms, alloc, stack, Op::BvAnd),
        Word::BvOr => on_bytes(terms, alloc, stack, Op::BvOr),
        Word::BvXor => on_bytes(terms, alloc, stack, Op::BvXor),
        Word::BvNot => on_byte(terms, alloc, stack, Op::BvNot),
        Word::Shl => on_bytes(terms, alloc, stack, Op::Shl),
        Word::Lshr => on_bytes(terms, alloc, stack, Op::Lshr),
        Word::Ashr => on_bytes(terms, alloc, stack, Op::Ashr),
        Word::Slt => on_bytes(terms, alloc, stack, Op::Slt),
        Word::Sle => on_bytes(terms, alloc, stack, Op::Sle),
        Word::Ult => on_bytes(terms, alloc, stack, Op::Ult),
        Word::Ule => on_bytes(terms, alloc, stack, Op::Ule),
        _ => of_widths(terms, alloc, stack, word),
    }
}

/// What a word makes that changes a width, or a word for arrays and records.
fn of_widths(
    terms: &mut Terms,
    alloc: Global,
    stack: &mut Vec<TermId>,
    word: Word,
) -> Result<Option<TermId>, AllocError> {
    match word {
        Word::Concat => on_bytes(terms, alloc, stack, Op::Concat),
        Word::Extract(high, low) if low <= high && high < 8 => {
            on_byte(terms, alloc, stack, Op::Extract(high, low))
        }
        Word::ExtractWide(high, low) if low <= high && high < 16 => {
            on_word(terms, alloc, stack, Op::Extract(high, low))
        }
        Word::ZeroExt(more) if more <= 56 => on_byte(terms, alloc, stack, Op::ZeroExt(more)),
        Word::SignExt(more) if more <= 56 => on_byte(terms, alloc, stack, Op::SignExt(more)),
        Word::ZeroExtWide(more) if more <= 48 => on_word(terms, alloc, stack, Op::ZeroExt(more)),
        Word::SignExtWide(more) if more <= 48 => on_word(terms, alloc, stack, Op::SignExt(more)),
        Word::Held => held(terms, alloc, stack),
        Word::HeldAfter => held_after(terms, alloc, stack),
        Word::EqualStores => equal_stores(terms, alloc, stack),
        Word::SecondField => second_field(terms, alloc, stack),
        Word::EqualPairs => equal_pairs(terms, alloc, stack),
        _ => Ok(None),
    }
}
