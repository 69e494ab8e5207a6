//! Statements and conditions in the order of the text.

ghost use Rattle.std.specs.Prelude.{◌≡◌, ◌++◌, ◌∷◌, [], length, OnOk, IfOk};
ghost use Rattle.uc_step_cycles.specs.Acts.{none_yet};

use std::alloc::{AllocError, Global};
use uc_items::Items;
use uc_syntax::Place;

/// A condition: the names that it reads primed, and what is around it.
#[derive(Drop)]
pub struct Context {
    pub reads: Items<u32>,
    /// 0 for what is around the block itself, and else the condition of this number, from 1.
    pub around: usize,
}

/// A statement that may write: the names that it writes, those that it reads primed, and what is around it.
#[derive(Drop)]
pub struct Writing {
    pub place: Place,
    pub written: Items<u32>,
    pub reads: Items<u32>,
    pub around: usize,
}

/// What a block does itself, and what it has instances do.
#[derive(Drop)]
pub enum Act {
    Writes(Writing),
    /// The instance of this name is stepped, inside these conditions.
    Steps(u32, usize),
}

/// What a block does, in the order of the text.
#[derive(Drop)]
pub struct Acts {
    pub contexts: Items<Context>,
    pub acts: Items<Act>,
}

impl Acts {
    pub(crate) fn new(alloc: Global) -> Acts
        ensures { result ≡ none_yet }
    {
        Acts {
            contexts: Items::new(alloc),
            acts: Items::new(alloc),
        }
    }

    pub(crate) fn push(&mut self, act: Act) -> Result<(), AllocError>
        ensures contexts { OnOk result (self.new.contexts ≡ self.old.contexts) }
        ensures acts { OnOk result (self.new.acts ≡ self.old.acts ++ act ∷ []) }
    {
        self.acts.push(act)?;
        Ok(())
    }

    /// Enters a condition, and gives its number.
    pub(crate) fn enter(&mut self, context: Context) -> Result<usize, AllocError>
        ensures number { IfOk result (λ n. n ≡ length self.new.contexts) }
        ensures contexts { OnOk result (self.new.contexts ≡ self.old.contexts ++ context ∷ []) }
        ensures acts { OnOk result (self.new.acts ≡ self.old.acts) }
    {
        self.contexts.push(context)?;
        Ok(self.contexts.len())
    }
}
