//! Terms: a table of nodes whose parts have smaller numbers, no two of which are equal.
#![tactic(auto)]

mod evaluation;
mod marks;
mod terms;

pub use evaluation::{eval, eval_all};
pub use marks::subterms;
pub use terms::Terms;
pub use uc_ops::{Model, Node, Op, SymbolMap, TermId};
