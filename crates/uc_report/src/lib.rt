//! Reports: heads of lines, traces and what control commands print.
//!
//! The heads of a report's lines, and a design as they name it.
//!
//! Counterexamples as text: what a trace shows of the cells of a design, state by state.
//!
//! The report of a design's control block: its lines with their verdicts, its prints, its text and its status.
//!
//! The rules on control blocks, and the first fault of main's.
#![tactic(auto)]

mod bytes;
mod cell;
mod control_rules;
mod control_text;
mod design;
mod heads;
mod heads_tables;
mod interpretation;
mod named;
mod parts;
mod places;
mod report;
mod shown;
mod trace_put;
mod trace_tables;
mod trace_text;
mod values;

pub use bytes::{put, put_between, put_number};
pub use cell::CellRef;
pub use control_rules::{ControlFault, ControlRule, check_control};
pub use control_text::report_text;
pub use design::DesignView;
pub use heads::{put_head, put_path};
pub use heads_tables::HeadTables;
pub use report::{LineResult, Print, Report, Verdict, Why, status_of};
pub use shown::ShownDesign;
pub use trace_tables::CexTables;
pub use trace_text::{cex_text, put_cex};
