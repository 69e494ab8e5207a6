//! What a run over cells says of the design that it was made of.
#![tactic(auto)]

mod flat_fits;
mod flat_refutations;
mod flat_sound;
mod flat_verdicts;

pub use flat_fits::{fits, init, init_typed, reads, reads_typed, step};
pub use flat_refutations::{found, lines, refuted};
pub use flat_sound::{has_valid_constants, is_sound, reads_own_types};
pub use flat_verdicts::{lines_in_order, linked_lines, verdicts};
