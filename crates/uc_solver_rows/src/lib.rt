//! Worked rows of the solver's parts, which only tests run.
#![tactic(auto)]

#[cfg(test)]
mod circuit;
#[cfg(test)]
mod gates;
#[cfg(test)]
mod linear;
#[cfg(test)]
mod log;
#[cfg(test)]
mod rings;
#[cfg(test)]
mod values;
