//! Code over cells, and what its further cells begin with.

ghost use Rattle.std.specs.Prelude.{◌≡◌, ◌+◌, ◌++◌, [], IfOk};

use crate::FlatArm;
use std::alloc::{AllocError, Global};
use uc_flat::{Expression, Statement};
use uc_items::Items;

/// Code over cells, and what its further cells begin with, in order.
#[derive(Drop)]
pub struct MadeCode {
    pub code: Items<Statement>,
    pub further: Items<Expression>,
}

/// The arms of a conditional, and what their further cells begin with, in order.
#[derive(Drop)]
pub struct MadeArms {
    pub arms: Items<FlatArm>,
    pub further: Items<Expression>,
}

impl MadeCode {
    /// Code that has no further cells.
    pub(crate) fn alone(alloc: Global, code: Items<Statement>) -> MadeCode
        ensures { result ≡ record { code = code; further = [] } }
    {
        MadeCode {
            code,
            further: Items::new(alloc),
        }
    }

    /// More code behind it.
    pub(crate) fn append(self, more: MadeCode) -> Result<MadeCode, AllocError>
        ensures { IfOk result (λ all. all ≡ record { code = self.code ++ more.code; further = self.further ++ more.further }) }
    {
        let mut all = self;
        all.code.append(more.code)?;
        all.further.append(more.further)?;
        Ok(all)
    }
}

impl MadeArms {
    pub(crate) fn new(alloc: Global) -> MadeArms
        ensures { result ≡ record { arms = []; further = [] } }
    {
        MadeArms {
            arms: Items::new(alloc),
            further: Items::new(alloc),
        }
    }

    /// More arms behind them.
    pub(crate) fn append(self, more: MadeArms) -> Result<MadeArms, AllocError>
        ensures { IfOk result (λ all. all ≡ record { arms = self.arms ++ more.arms; further = self.further ++ more.further }) }
    {
        let mut all = self;
        all.arms.append(more.arms)?;
        all.further.append(more.further)?;
        Ok(all)
    }
}

/// The number of a cell so many behind another. Numbers of cells are below 2^32: a greater one counts as want of memory.
pub(crate) fn behind(cell: u32, count: usize) -> Result<u32, AllocError>
    ensures { IfOk result (λ k. k ≡ cell + count) }
{
    match u32::try_from(count) {
        Ok(count) => match cell.checked_add(count) {
            Some(k) => Ok(k),
            None => Err(AllocError),
        },
        Err(_) => Err(AllocError),
    }
}
