//! The words of operations on the words of their parts.

ghost use Rattle.std.specs.Prelude.{◌≡◌, true, IfOk};
ghost use Rattle.uc_ops.specs.Typing.{Suits, AllValid, part_type, types_at};
ghost use Rattle.uc_ops.specs.declared.op.Op.TheVariants.{And, Concat, Eq, Ite, Not, Or};
ghost use Rattle.uc_circuit.specs.Building.{Grows, size};
ghost use Rattle.uc_blast.specs.Words.{is_bits, words_at, AreWords, Gives};
ghost use Rattle.uc_blast.specs.Operations.{IsPair, IsOrder, IsSingle};

use crate::logic::{all_of, any_of};
use crate::operations::{order, pair_bits, single_bits};
use crate::words::{truth, word};
use std::alloc::{AllocError, Global};
use uc_circuit::{Gates, Signal, choose_each, concat, equal};
use uc_items::Items;
use uc_ops::{Node, Op, TermId};

/// The word of an operation from two bit-vectors of one width to a third. The nodes tell the types of the parts.
pub(crate) fn pair_word(
    alloc: Global,
    gates: &mut Gates,
    op: &Op,
    nodes: &[Node],
    words: &[Items<Signal>],
    parts: &[TermId],
) -> Result<Items<Signal>, AllocError>
    requires op { IsPair op.now }
    requires suits { Suits op.now (types_at nodes.now parts.now) }
    requires valid { AllValid (types_at nodes.now parts.now) }
    requires words { AreWords (size gates.old) (types_at nodes.now parts.now) (words_at words.now parts.now) }
    ensures grows { Grows gates.old gates.new }
    ensures ok { IfOk result (Gives gates.new op.now (types_at nodes.now parts.now) (words_at words.now parts.now)) }
{
    let a = word(words, parts, 0);
    let b = word(words, parts, 1);
    let bits = pair_bits(alloc, gates, op, a, b)?;
    Ok(Items::from_vec(bits))
}

/// The word of a comparison of two bit-vectors of one width.
pub(crate) fn order_word(
    alloc: Global,
    gates: &mut Gates,
    op: &Op,
    nodes: &[Node],
    words: &[Items<Signal>],
    parts: &[TermId],
) -> Result<Items<Signal>, AllocError>
    requires op { IsOrder op.now }
    requires suits { Suits op.now (types_at nodes.now parts.now) }
    requires valid { AllValid (types_at nodes.now parts.now) }
    requires words { AreWords (size gates.old) (types_at nodes.now parts.now) (words_at words.now parts.now) }
    ensures grows { Grows gates.old gates.new }
    ensures ok { IfOk result (Gives gates.new op.now (types_at nodes.now parts.now) (words_at words.now parts.now)) }
{
    let a = word(words, parts, 0);
    let b = word(words, parts, 1);
    let truth = order(gates, op, a, b)?;
    Items::from_slice(alloc, &[truth])
}

/// The word of an operation from one bit-vector to another.
pub(crate) fn single_word(
    alloc: Global,
    gates: &mut Gates,
    op: &Op,
    nodes: &[Node],
    words: &[Items<Signal>],
    parts: &[TermId],
) -> Result<Items<Signal>, AllocError>
    requires op { IsSingle op.now }
    requires suits { Suits op.now (types_at nodes.now parts.now) }
    requires valid { AllValid (types_at nodes.now parts.now) }
    requires words { AreWords (size gates.old) (types_at nodes.now parts.now) (words_at words.now parts.now) }
    ensures grows { Grows gates.old gates.new }
    ensures ok { IfOk result (Gives gates.new op.now (types_at nodes.now parts.now) (words_at words.now parts.now)) }
{
    let a = word(words, parts, 0);
    let bits = single_bits(alloc, gates, op, a)?;
    Ok(Items::from_vec(bits))
}

/// The word of two bit-vectors, one after the other.
pub(crate) fn concat_word(
    alloc: Global,
    gates: &mut Gates,
    nodes: &[Node],
    words: &[Items<Signal>],
    parts: &[TermId],
) -> Result<Items<Signal>, AllocError>
    requires suits { Suits Concat (types_at nodes.now parts.now) }
    requires words { AreWords (size gates.old) (types_at nodes.now parts.now) (words_at words.now parts.now) }
    ensures grows { Grows gates.old gates.new }
    ensures ok { IfOk result (Gives gates.new Concat (types_at nodes.now parts.now) (words_at words.now parts.now)) }
{
    let high = word(words, parts, 0);
    let low = word(words, parts, 1);
    let bits = concat(alloc, high, low)?;
    Ok(Items::from_vec(bits))
}

/// The word of a negation.
pub(crate) fn not_word(
    alloc: Global,
    gates: &mut Gates,
    nodes: &[Node],
    words: &[Items<Signal>],
    parts: &[TermId],
) -> Result<Items<Signal>, AllocError>
    requires suits { Suits Not (types_at nodes.now parts.now) }
    requires words { AreWords (size gates.old) (types_at nodes.now parts.now) (words_at words.now parts.now) }
    ensures grows { Grows gates.old gates.new }
    ensures ok { IfOk result (Gives gates.new Not (types_at nodes.now parts.now) (words_at words.now parts.now)) }
{
    let negated = truth(word(words, parts, 0)).turn();
    Items::from_slice(alloc, &[negated])
}

/// The word of an equality of two booleans or two bit-vectors.
pub(crate) fn equal_word(
    alloc: Global,
    gates: &mut Gates,
    nodes: &[Node],
    words: &[Items<Signal>],
    parts: &[TermId],
) -> Result<Items<Signal>, AllocError>
    requires suits { Suits Eq (types_at nodes.now parts.now) }
    requires bits { is_bits (part_type (types_at nodes.now parts.now) 0) ≡ true }
    requires words { AreWords (size gates.old) (types_at nodes.now parts.now) (words_at words.now parts.now) }
    ensures grows { Grows gates.old gates.new }
    ensures ok { IfOk result (Gives gates.new Eq (types_at nodes.now parts.now) (words_at words.now parts.now)) }
{
    let a = word(words, parts, 0);
    let b = word(words, parts, 1);
    let same = equal(gates, a, b)?;
    Items::from_slice(alloc, &[same])
}

/// The word of a conditional of two booleans or two bit-vectors.
pub(crate) fn choice_word(
    alloc: Global,
    gates: &mut Gates,
    nodes: &[Node],
    words: &[Items<Signal>],
    parts: &[TermId],
) -> Result<Items<Signal>, AllocError>
    requires suits { Suits Ite (types_at nodes.now parts.now) }
    requires bits { is_bits (part_type (types_at nodes.now parts.now) 1) ≡ true }
    requires words { AreWords (size gates.old) (types_at nodes.now parts.now) (words_at words.now parts.now) }
    ensures grows { Grows gates.old gates.new }
    ensures ok { IfOk result (Gives gates.new Ite (types_at nodes.now parts.now) (words_at words.now parts.now)) }
{
    let condition = truth(word(words, parts, 0));
    let a = word(words, parts, 1);
    let b = word(words, parts, 2);
    let bits = choose_each(alloc, gates, condition, a, b)?;
    Ok(Items::from_vec(bits))
}

/// The word of a conjunction.
pub(crate) fn and_word(
    alloc: Global,
    gates: &mut Gates,
    nodes: &[Node],
    words: &[Items<Signal>],
    parts: &[TermId],
) -> Result<Items<Signal>, AllocError>
    requires suits { Suits And (types_at nodes.now parts.now) }
    requires words { AreWords (size gates.old) (types_at nodes.now parts.now) (words_at words.now parts.now) }
    ensures grows { Grows gates.old gates.new }
    ensures ok { IfOk result (Gives gates.new And (types_at nodes.now parts.now) (words_at words.now parts.now)) }
{
    let all = all_of(gates, words, parts)?;
    Items::from_slice(alloc, &[all])
}

/// The word of a disjunction.
pub(crate) fn or_word(
    alloc: Global,
    gates: &mut Gates,
    nodes: &[Node],
    words: &[Items<Signal>],
    parts: &[TermId],
) -> Result<Items<Signal>, AllocError>
    requires suits { Suits Or (types_at nodes.now parts.now) }
    requires words { AreWords (size gates.old) (types_at nodes.now parts.now) (words_at words.now parts.now) }
    ensures grows { Grows gates.old gates.new }
    ensures ok { IfOk result (Gives gates.new Or (types_at nodes.now parts.now) (words_at words.now parts.now)) }
{
    let any = any_of(gates, words, parts)?;
    Items::from_slice(alloc, &[any])
}
