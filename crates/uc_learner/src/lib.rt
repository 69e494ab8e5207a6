//! Clause learning: a search for values that make every clause true, or for a log that the checker accepts.
//!
//! In: a problem and the entries of its log. Out: a candidate, which makes every clause of both true, or a log that
//! is accepted. What is learnt goes into the log with its hints, and each entry is spent at a meter.
//!
//! A search has two parts. In the first any variable is decided, and the search begins anew now and then. It ends while so many entries
//! are left as the second may need: 2 to the number of inputs, where the budget has them. The second decides inputs alone, does not begin
//! anew, and spends at most an entry for each assignment of the inputs. A candidate of the first is found again by the second, which
//! begins with its values.
//!
//! A variable is decided by its score, which rises with each conflict that it takes part in, and gets the value that it had last. A conflict
//! teaches the clause of the first unique implication point that may be decided, without literals that follow from others. It is proposed
//! without proof, and taken where the log's check accepts it by its hints and a look at the trail finds where it forces its first literal.
//! Else the conflict teaches the clause of the last decision. There is no deletion.
//!
//! In the second part a decision takes a step for each input. In both it takes one for each clause without two different literals. A
//! conflict takes, besides propagation, a step for each literal that is resolved, and some memory for each variable, which is made anew.
#![tactic(auto)]

mod acceptance;
mod analysis;
mod learn;
mod learner;
mod order;
mod preferences;
mod propagation;
mod proposal;
mod state;

pub use learn::{LearnError, Search};
pub use learner::Learner;
