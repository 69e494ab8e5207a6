//! The language of the texts, and what the laws of reading say of it.

ghost use Rattle.uc_forms.specs.Law.{OneAnswer, OneValue, StandAlike};
ghost use Rattle.uc_grammar.specs.Language.{grammar};

use uc_forms::Language;

/// Stands for the language in the laws of reading.
pub struct Modules;

impl Language for Modules {
    ghost grammar = { grammar };
}

/// Words spell at most one list of modules.
pub fn spells_one_list()
    ensures { OneValue grammar }
{
    uc_forms::one_value::<Modules>();
}

/// One answer is right for words: their modules, or one fault at one place.
pub fn has_one_answer()
    ensures { OneAnswer grammar }
{
    uc_forms::one_answer::<Modules>();
}

/// How words stand (their nesting, and which names they declare) is the same in all texts that begin with them.
pub fn stands_alike()
    ensures { StandAlike grammar }
{
    uc_forms::stand_alike::<Modules>();
}
