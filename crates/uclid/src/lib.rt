//! The top call of the verifier: from the words of a command line and the bytes of files to the bytes of a report.
#![tactic(auto)]

mod answer;
mod lines;
mod top;

pub use answer::{Answer, Session};
pub use top::{Outcome, run};
