//! Graphs of numbered nodes: lists of edges, orders, what is reached, and what lies on a cycle.
//!
//! Lists of numbers by their place, as the edges of a graph are kept.
//!
//! The nodes of a graph in an order in which each comes after those that it needs, in time linear in the graph.
//!
//! The nodes of a graph that are reached from some, in time linear in the edges that are met.
//!
//! Which nodes of a graph lie on a cycle, in time linear in the graph.
//!
//! The places of a graph in the order of their numbers, but each behind those that it needs.
#![tactic(auto)]

mod cycle_order;
mod cycles;
mod free_order;
mod lists;
mod needed_order;
mod reached;
mod ready;
mod reversed;
mod settled;
mod settling;

pub use cycles::on_cycles;
pub use free_order::first_free_order;
pub use lists::Lists;
pub use needed_order::needed_first;
pub use reached::take_reached;
