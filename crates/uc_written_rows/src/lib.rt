//! Worked rows of parts that are written twice, which only tests run.
#![tactic(auto)]

#[cfg(test)]
mod rows;
