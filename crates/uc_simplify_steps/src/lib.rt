//! Steps of the simplifier of terms: what an operation on parts may be replaced by, where nothing but the operation changes.
//!
//! A rule names a term below the parts, or another operation on such terms; its contract says that this has the type and under
//! every model the value of the operation, and brings no symbol, function, integer, array or `Diff` that is new. [`settle`] tries
//! the rules in turn, and again on what a rule gives. The rules stand on the page of the simplifier, `uc_simplify`.
#![tactic(auto)]

mod extracts;
mod folding;
mod gathering;
mod junctions;
mod opened;
mod pairs;
mod places;
mod settling;
mod step;
mod sums;
mod truths;
mod words;

pub use settling::settle;
pub use step::Step;
