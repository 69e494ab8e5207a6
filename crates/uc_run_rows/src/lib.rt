//! Worked rows of single expressions and of sequential code, and of designs that are copied, which only tests run.
#![tactic(auto)]

#[cfg(test)]
mod chains;
#[cfg(test)]
mod code;
#[cfg(test)]
mod designs;
#[cfg(test)]
mod formulas;
#[cfg(test)]
mod layout;
