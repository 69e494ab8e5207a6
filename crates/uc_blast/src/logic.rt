//! Conjunctions and disjunctions of words of booleans.

ghost use Rattle.std.specs.Prelude.{◌≡◌, false, length, slice_index_or, IfOk, All};
ghost use Rattle.std.specs.List.{list_all, list_any};
ghost use Rattle.uc_circuit.specs.Signals.{Below};
ghost use Rattle.uc_circuit.specs.Building.{Grows, size};
ghost use Rattle.uc_circuit.specs.Meanings.{Means};
ghost use Rattle.uc_circuit.specs.declared.signal.Signal.TheVariants.{Constant};
ghost use Rattle.uc_blast.specs.Words.{words_at, first};

use crate::words::{truth, word};
use std::alloc::AllocError;
use uc_circuit::{Gates, Signal};
use uc_items::Items;
use uc_ops::TermId;

/// Whether all parts are true.
pub(crate) fn all_of(
    gates: &mut Gates,
    words: &[Items<Signal>],
    parts: &[TermId],
) -> Result<Signal, AllocError>
    requires { All (λ w. Below (size gates.old) (slice_index_or w 0 (Constant false))) (words_at words.now parts.now) }
    ensures grows { Grows gates.old gates.new }
    ensures ok { IfOk result (Means gates.new (λ v. list_all (first v) (words_at words.now parts.now))) }
{
    let mut all = Signal::Constant(true);
    for place in 0..parts.len() {
        let part = truth(word(words, parts, place));
        all = gates.and(all, part)?;
    }
    Ok(all)
}

/// Whether one of the parts is true.
pub(crate) fn any_of(
    gates: &mut Gates,
    words: &[Items<Signal>],
    parts: &[TermId],
) -> Result<Signal, AllocError>
    requires { All (λ w. Below (size gates.old) (slice_index_or w 0 (Constant false))) (words_at words.now parts.now) }
    ensures grows { Grows gates.old gates.new }
    ensures ok { IfOk result (Means gates.new (λ v. list_any (first v) (words_at words.now parts.now))) }
{
    let mut any = Signal::Constant(false);
    for place in 0..parts.len() {
        let part = truth(word(words, parts, place));
        any = gates.or(any, part)?;
    }
    Ok(any)
}
