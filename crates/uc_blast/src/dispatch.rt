//! The word of an operation, by its kind.

ghost use Rattle.std.specs.Prelude.{◌≡◌, true, IfOk};
ghost use Rattle.uc_ops.specs.Typing.{Suits, AllValid, part_type, types_at};
ghost use Rattle.uc_circuit.specs.Building.{Grows, size};
ghost use Rattle.uc_blast.specs.Words.{is_bits, words_at, AreWords, Gives};
ghost use Rattle.uc_blast.specs.Operations.{IsComputed};

use crate::computed::{
    and_word, choice_word, concat_word, equal_word, not_word, or_word, order_word, pair_word,
    single_word,
};
use crate::constants::constant_word;
use std::alloc::{AllocError, Global};
use uc_circuit::{Gates, Signal};
use uc_items::Items;
use uc_ops::{Node, Op, TermId};

/// The word of an operation on booleans and bit-vectors, from the words of its parts. The nodes tell the types of the parts.
pub fn operation_word(
    alloc: Global,
    gates: &mut Gates,
    op: &Op,
    nodes: &[Node],
    words: &[Items<Signal>],
    parts: &[TermId],
) -> Result<Items<Signal>, AllocError>
    requires op { IsComputed op.now (types_at nodes.now parts.now) }
    requires suits { Suits op.now (types_at nodes.now parts.now) }
    requires valid { AllValid (types_at nodes.now parts.now) }
    requires words { AreWords (size gates.old) (types_at nodes.now parts.now) (words_at words.now parts.now) }
    ensures grows { Grows gates.old gates.new }
    ensures ok { IfOk result (Gives gates.new op.now (types_at nodes.now parts.now) (words_at words.now parts.now)) }
{
    match op {
        Op::Const(_, value) => constant_word(alloc, value),
        Op::Not => not_word(alloc, gates, nodes, words, parts),
        Op::And => and_word(alloc, gates, nodes, words, parts),
        Op::Or => or_word(alloc, gates, nodes, words, parts),
        Op::Eq => equal_word(alloc, gates, nodes, words, parts),
        Op::Ite => choice_word(alloc, gates, nodes, words, parts),
        Op::Concat => concat_word(alloc, gates, nodes, words, parts),
        Op::BvAdd
        | Op::BvSub
        | Op::BvMul
        | Op::BvAnd
        | Op::BvOr
        | Op::BvXor
        | Op::Shl
        | Op::Lshr
        | Op::Ashr => pair_word(alloc, gates, op, nodes, words, parts),
        Op::BvNeg | Op::BvNot | Op::Extract(_, _) | Op::ZeroExt(_) | Op::SignExt(_) => {
            single_word(alloc, gates, op, nodes, words, parts)
        }
        Op::Slt | Op::Sle | Op::Ult | Op::Ule => order_word(alloc, gates, op, nodes, words, parts),
        _ => unreachable!(),
    }
}
