//! Worked rows of steps and of traces that refute a line, and of their nearest neighbours, which only tests run.
#![tactic(auto)]

#[cfg(test)]
mod layout;
#[cfg(test)]
mod rows;
#[cfg(test)]
mod traces;
