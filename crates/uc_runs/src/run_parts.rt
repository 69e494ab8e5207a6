//! The parts of running code, for every form of statement.
//!
//! Where no expression is read: choices that must fit, sites that are listed once, locals that begin and end, and the values of a loop's
//! variable. What code writes: a name that is given a value, which is its newest local, else a cell, where an output that a parent binds to a
//! name is that name of the parent; and a record with a field changed. Each call gives exactly what the definitions of the meaning give.
//! Numbers past the ranges of the types are answered as want of memory.
//!
//! And laws of what is met where code runs: the operations are listed along the very run that the code has. `specs/Levels.antt` names a run
//! where procedures call each other through at most so many further calls. `proofs/Forms.antt` has, as lemmas, what each form of statement
//! does and meets, in terms of the code inside it.

ghost use Rattle.uc_runs.specs.Laws.{TracedCodeIsCode, TracedStepsAreSteps, MetOneAfterAnother, MetInConditionals, MetInTurns};

/// A statement that is listed with what it meets runs as it does alone.
#[tactic(auto, using(crate::proofs::Layers::traced_code))]
pub fn traced_code_is_code()
    ensures { TracedCodeIsCode }
{}

/// A statement of a next block that is listed with what is met where it is checked holds where it does alone.
#[tactic(auto, using(crate::proofs::Layers::traced_steps))]
pub fn traced_steps_are_steps()
    ensures { TracedStepsAreSteps }
{}

/// In code behind other code is met what it meets from where the other goes on, and nothing where it does not.
#[tactic(auto, using(crate::proofs::Forms::met_in_order))]
pub fn met_one_after_another()
    ensures { MetOneAfterAnother }
{}

/// In a conditional the conditions are met up to the first true one, and then the block that is taken.
pub fn met_in_conditionals()
    ensures { MetInConditionals }
{}

/// In a loop the turns are met one after another, each where those before it go on.
#[tactic(auto, using(crate::proofs::Forms::met_in_turns))]
pub fn met_in_turns()
    ensures { MetInTurns }
{}
