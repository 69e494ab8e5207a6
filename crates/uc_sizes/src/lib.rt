//! How much code a design has when its calls, defines and instances are counted out, and the rule that bounds it.
//!
//! Whether main expands to more than the limits allow: statements, nodes of expressions, cells and instances.
//!
//! Nothing is expanded: what the expansion has is counted, and the walk ends at the first statement or node past its limit.
//!
//! How many nodes an expression has in the text, and what it uses whose nodes count too.
//!
//! Code as a list of pieces, each with how often it is run through: statements, expressions, calls and steps of instances.
//!
//! The nodes of an expression with all that it uses, counted up to the limits of a design.
//!
//! The walk stops at the first node past a limit, so its time is that of at most so many nodes.
//!
//! The statements and nodes of code with all that it calls and steps, counted up to the limits of a design.
#![tactic(auto)]

mod axioms;
mod code_pieces;
mod counted;
mod expansion;
mod expression_nodes;
mod instances;
mod large;
mod parts;
mod pieces;
mod spent;
mod spent_code;
mod spent_nodes;
mod way;

pub use code_pieces::pieces_of;
pub use counted::{Counted, Use};
pub use expression_nodes::{add_nodes, add_nodes_of_all};
pub use large::is_too_large;
pub use pieces::{Piece, Repeated};
pub use spent::{Halt, Spent, repeat};
pub use spent_code::{spend_code, spend_next};
pub use spent_nodes::spend_nodes;
