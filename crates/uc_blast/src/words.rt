//! The words of parts.

ghost use Rattle.std.specs.Prelude.{◌≡◌, ◌<◌, ◌^◌, [], ◌∷◌, false, length, map, slice_index_or, IfOk, All};
ghost use Rattle.std.specs.List.{list_all, list_any};
ghost use Rattle.uc_circuit.specs.Signals.{signal_value, AllBelow};
ghost use Rattle.uc_circuit.specs.Building.{Grows, size};
ghost use Rattle.uc_circuit.specs.Meanings.{Means};
ghost use Rattle.uc_circuit.specs.declared.signal.Signal.TheVariants.{Constant};
ghost use Rattle.uc_blast.specs.Words.{words_at, first};

use std::alloc::AllocError;
use uc_circuit::{Gates, Signal};
use uc_items::{Items, at};
use uc_ops::TermId;

/// The word at a place, and none where there is none.
pub(crate) fn word_at(words: &[Items<Signal>], place: usize) -> &[Signal]
    ensures { result.now ≡ slice_index_or words.now place [] }
{
    match at(words, place) {
        Some(word) => word.as_slice(),
        None => &[],
    }
}

/// The word of a part, by its place among the parts, and none where there is none.
pub(crate) fn word<'a>(words: &'a [Items<Signal>], parts: &[TermId], place: usize) -> &'a [Signal]
    ensures { result.now ≡ slice_index_or (words_at words.now parts.now) place [] }
{
    match at(parts, place) {
        Some(part) => word_at(words, part.index()),
        None => &[],
    }
}

/// The signal of a boolean.
pub(crate) fn truth(word: &[Signal]) -> Signal
    ensures { result ≡ slice_index_or word.now 0 (Constant false) }
{
    match word {
        [] => Signal::Constant(false),
        [signal, ..] => *signal,
    }
}
