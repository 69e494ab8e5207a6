//! Each operation of terms at values that were worked out by hand from the theory of fixed-size bit-vectors, from arithmetic
//! and from the theories of arrays and records: what `mk` and `eval` say of it is compared with these. Then each rule that simplifies a
//! term, by a term before it and after.
#![tactic(auto)]

#[cfg(test)]
mod bit_tables;
#[cfg(test)]
mod bits;
#[cfg(test)]
mod building;
#[cfg(test)]
mod compounds;
#[cfg(test)]
mod other_tables;
#[cfg(test)]
mod others;
#[cfg(test)]
mod sharing;
#[cfg(test)]
mod simplified;
#[cfg(test)]
mod taken;
#[cfg(test)]
mod words;
