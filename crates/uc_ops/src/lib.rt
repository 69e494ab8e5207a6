//! The operations of terms: which parts suit them, what they give, and when two nodes are equal.
#![tactic(auto)]

mod application;
mod bitwise;
mod built;
mod copying;
mod difference;
mod equality;
mod model;
mod node;
mod op;
mod part;
mod term_id;
mod truth;
mod typing;

pub use application::apply;
pub use copying::copy_op;
pub use equality::equal_types;
pub use model::{Model, SymbolMap};
pub use node::Node;
pub use op::Op;
pub use term_id::TermId;
pub use typing::result_type;
