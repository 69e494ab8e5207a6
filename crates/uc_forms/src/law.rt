//! The law of counting, as the contract of a function that computes nothing.

ghost use Rattle.uc_forms.specs.CountedLaw.{CountingIsReading};

use crate::Language;

/// Counting reads what reading reads, and counts the names that the words which it takes declare.
#[tactic(auto, using(crate::proofs::Joined::counting_is_reading))]
pub fn counting_is_reading<L: Language>()
    ensures { CountingIsReading L.grammar }
{}
