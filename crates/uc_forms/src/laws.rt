//! The laws of reading, each as the contract of a function that computes nothing.

ghost use Rattle.uc_forms.specs.Law.{ReadIsSpelled, SpelledIsRead, DeepIsRefused, LevelsBoundDepths, DepthsBoundLevels, FaultComesAgain, FaultCompletes, StandAlike, OneValue, AnswersRight, OneAnswer};

/// A plain grammar. A type that implements it stands for its language in the laws.
pub trait Language {
    ghost use Rattle.uc_forms.specs.Grammar.{Grammar};

    ghost grammar: { Grammar };
}

/// What is read is spelled by the words that were taken.
#[tactic(auto, using(crate::proofs::Every::read_is_spelled))]
pub fn read_is_spelled<L: Language>()
    ensures { ReadIsSpelled L.grammar }
{}

/// What is spelled is read, where no word lies too deep.
#[tactic(auto, using(crate::proofs::Every::spelled_is_read))]
pub fn spelled_is_read<L: Language>()
    ensures { SpelledIsRead L.grammar }
{}

/// Where a word of what is spelled lies too deep, reading stops at the first that does.
#[tactic(auto, using(crate::proofs::Every::deep_is_refused))]
pub fn deep_is_refused<L: Language>()
    ensures { DeepIsRefused L.grammar }
{}

/// In what is spelled with so many levels, no word lies in more nested forms.
#[tactic(auto, using(crate::proofs::Every::levels_bound_depths))]
pub fn levels_bound_depths<L: Language>()
    ensures { LevelsBoundDepths L.grammar }
{}

/// What is spelled, and with no word in more nested forms, is spelled with so many levels.
#[tactic(auto, using(crate::proofs::Every::depths_bound_levels))]
pub fn depths_bound_levels<L: Language>()
    ensures { DepthsBoundLevels L.grammar }
{}

/// A fault at a word comes whatever words follow it.
#[tactic(auto, using(crate::proofs::Every::fault_comes_again))]
pub fn fault_comes_again<L: Language>()
    ensures { FaultComesAgain L.grammar }
{}

/// The words before a fault can be completed.
#[tactic(auto, using(crate::proofs::Every::fault_completes))]
pub fn fault_completes<L: Language>()
    ensures { FaultCompletes L.grammar }
{}

/// How words stand is the same in all texts that begin with them.
#[tactic(auto, using(crate::proofs::Every::stand_alike))]
pub fn stand_alike<L: Language>()
    ensures { StandAlike L.grammar }
{}

/// Words spell at most one value.
#[tactic(auto, using(crate::proofs::Every::one_value))]
pub fn one_value<L: Language>()
    ensures { OneValue L.grammar }
{}

/// What reading answers is to be answered.
#[tactic(auto, using(crate::proofs::Every::answers_right))]
pub fn answers_right<L: Language>()
    ensures { AnswersRight L.grammar }
{}

/// One answer is right: of two faults the first place, and at one place the least fault.
#[tactic(auto, using(crate::proofs::Every::one_answer))]
pub fn one_answer<L: Language>()
    ensures { OneAnswer L.grammar }
{}
