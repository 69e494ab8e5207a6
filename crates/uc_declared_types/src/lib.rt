//! What written types stand for in a design, and the rules that they break. Each alias is read once.
#![tactic(auto)]

mod aliases;
mod counts;
mod fields;
mod known;
mod listed;
mod named;
mod needs;
mod passes;
mod reading;
mod shapes;
mod way_laws;

pub use known::KnownTypes;
pub use way_laws::{
    alias_ways_are_followed, aliases_are_read, calls_are_declared, defines_are_followed,
    instance_ways_are_followed,
};
