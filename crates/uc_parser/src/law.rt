//! The law of the tokens, as the contract of a function that computes nothing.

ghost use Rattle.uc_parser.specs.Law.{TokensSpellOneList};

/// Tokens spell at most one list of modules.
pub fn tokens_spell_one_list()
    ensures { TokensSpellOneList }
{
    uc_words::tokens_have_one_list();
    uc_grammar::spells_one_list();
}
