//! The log of a refutation, its checker, and the meter that counts entries.
//!
//! In: a problem, which is a circuit, a literal that is to be true and an atom for each input, and
//! a log of entries. Out: whether the log is accepted. An accepted log has no model of its
//! problem, so nothing that finds a log is trusted.
#![tactic(auto)]

mod atom;
mod checker;
mod entry;
mod laws;
mod log;
mod meter;
mod problem;
mod same_type;
mod scratch;
mod search;

pub use atom::Atom;
pub use checker::{check, is_learnt};
pub use entry::Entry;
pub use laws::{accepted_logs_refute, logs_grow};
pub use log::Log;
pub use meter::{CountMeter, Meter};
pub use problem::Problem;
pub use scratch::Scratch;
pub use search::{Candidate, Lemma, Origin, Why};
