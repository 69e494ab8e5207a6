//! The rules on order and sizes as definitions: cycles of uses and calls, parts that are written twice, cells that depend on themselves,
//! instances that are stepped twice, and the limits of what a design expands to.
//!
//! `specs/` says for every design that keeps the static rules which of these rules it breaks and where; `order_faults` in
//! `specs/Order.antt` is the list of all faults.
//!
//! Laws of what happens along the paths through code: what walks over the code find of it, each loop walked once.
//!
//! Laws of what meets along the paths through code, as pairs: of two things that meet, the one happens before the other on some path.
#![tactic(auto)]

mod passage_laws;
mod read_laws;

pub use passage_laws::cycles_are_passed;
pub use read_laws::inputs_read_uses;
