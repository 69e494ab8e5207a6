//! The lines of the design.

use crate::toggle::toggle;
use std::alloc::{AllocError, Global};
use uc_flat_lines::{FlatLine, judge_flat};
use uc_items::Items;
use uc_log::CountMeter;

/// The greatest number of steps.
const MOST: u32 = 3;

const BUDGET: u64 = 1000;

/// The lines of the design, each with its verdict.
pub(crate) fn judged(alloc: Global) -> Result<Items<FlatLine>, AllocError> {
    let design = toggle(alloc)?;
    let mut meter = CountMeter::new();
    judge_flat(alloc, &design, MOST, BUDGET, &mut meter)
}
