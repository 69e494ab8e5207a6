//! Runs the control block of a design: each line that a `check` follows is judged, once, and each print is told its lines and its
//! cells.
#![tactic(auto)]

mod cells;
mod commands;
mod control;
mod failed;
mod judging;
mod lines;
mod shown;
mod walk;

pub use control::run_control;
pub use shown::shown_design;
