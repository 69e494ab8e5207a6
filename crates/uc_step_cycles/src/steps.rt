//! The names of the instances that a block steps.

ghost use Rattle.std.specs.Prelude.{◌≡◌, ◌||◌, ℕ, nat_eq, is_some, IfOk, OnOk};
ghost use Rattle.indexmap.specs.IndexMap.{get};
ghost use Rattle.uc_step_cycles.specs.Steps.{KnowsSteps, steps_name};

use crate::Act;
use std::alloc::{AllocError, Global};
use uc_names::Firsts;

/// A table with the names of the instances that are stepped.
pub(crate) fn steps_in(alloc: Global, acts: &[Act]) -> Result<Firsts<bool>, AllocError>
    ensures { IfOk result (λ t. KnowsSteps acts.now t) }
{
    let mut steps = Firsts::new(alloc);
    for act in acts {
        enter(act, &mut steps)?;
    }
    Ok(steps)
}

fn enter(act: &Act, steps: &mut Firsts<bool>) -> Result<(), AllocError>
    ensures { OnOk result ((x : ℕ) → is_some (get nat_eq steps.new.things x) ≡ (is_some (get nat_eq steps.old.things x) || steps_name x act.now)) }
{
    match act {
        Act::Writes(_) => Ok(()),
        Act::Steps(name, _) => {
            steps.enter(*name, Some(true))?;
            Ok(())
        }
    }
}
