//! Each operation at each width.

use crate::agreeing::{
    choice_agrees, concatenation_agrees, constants_agree, equality_agrees, extension_agrees,
    extraction_agrees, junction_agrees, negation_agrees, pair_agrees, single_agrees,
    truth_choice_agrees, truths_agree,
};
use crate::operations::{
    Extension, Junction, PAIRS, Single, extension_name, junction_name, pair_name, single_name,
};
use std::alloc::{AllocError, Global};
use std::test::Fail;

/// The greatest width.
const MOST: u8 = 4;

/// The lines of the table.
#[derive(Drop)]
pub(crate) struct Table {
    pub(crate) text: String,
}

impl Table {
    fn tell(&mut self, name: &str, agrees: bool) -> Result<(), AllocError> {
        write!(self.text, "{name} {}\n", said(agrees))
    }

    fn tell_at(&mut self, name: &str, width: u8, agrees: bool) -> Result<(), AllocError> {
        write!(self.text, "{name} of {width} bits {}\n", said(agrees))
    }

    /// Lines on operations on two bit-vectors of one width.
    fn add_pairs(&mut self, alloc: Global) -> Result<(), Fail> {
        for pair in PAIRS {
            for width in 1..MOST + 1 {
                self.tell_at(pair_name(pair), width, pair_agrees(alloc, pair, width)?)?;
            }
        }
        Ok(())
    }

    /// Lines on operations on one bit-vector.
    fn add_singles(&mut self, alloc: Global) -> Result<(), Fail> {
        for single in [Single::Neg, Single::Not] {
            for width in 1..MOST + 1 {
                self.tell_at(
                    single_name(single),
                    width,
                    single_agrees(alloc, single, width)?,
                )?;
            }
        }
        Ok(())
    }

    /// Lines on operations that add bits.
    fn add_extensions(&mut self, alloc: Global) -> Result<(), Fail> {
        for extension in [Extension::Zero, Extension::Sign] {
            for width in 1..MOST + 1 {
                let agrees = extension_agrees(alloc, extension, width)?;
                self.tell_at(extension_name(extension), width, agrees)?;
            }
        }
        Ok(())
    }

    /// Lines on what has places or several widths, and on choices and constants.
    fn add_others(&mut self, alloc: Global) -> Result<(), Fail> {
        for width in 1..MOST + 1 {
            self.tell_at("Extract", width, extraction_agrees(alloc, width)?)?;
        }
        for width in 1..MOST + 1 {
            self.tell_at("Concat", width, concatenation_agrees(alloc, width)?)?;
        }
        for width in 1..MOST + 1 {
            self.tell_at("Ite", width, choice_agrees(alloc, width)?)?;
        }
        for width in 1..MOST + 1 {
            self.tell_at("Const", width, constants_agree(alloc, width)?)?;
        }
        Ok(())
    }

    /// Lines on operations on booleans.
    fn add_booleans(&mut self, alloc: Global) -> Result<(), Fail> {
        for junction in [Junction::And, Junction::Or] {
            self.tell(junction_name(junction), junction_agrees(alloc, junction)?)?;
        }
        self.tell("Not", negation_agrees(alloc)?)?;
        self.tell("Eq", equality_agrees(alloc)?)?;
        self.tell("Ite", truth_choice_agrees(alloc)?)?;
        self.tell("Const", truths_agree(alloc)?)?;
        Ok(())
    }
}

/// The whole table.
pub(crate) fn whole_table(alloc: Global) -> Result<Table, Fail> {
    let text = String::new(alloc);
    let mut table = Table { text };
    table.add_pairs(alloc)?;
    table.add_singles(alloc)?;
    table.add_extensions(alloc)?;
    table.add_others(alloc)?;
    table.add_booleans(alloc)?;
    Ok(table)
}

fn said(agrees: bool) -> &'static str {
    if agrees { "agrees" } else { "differs" }
}
