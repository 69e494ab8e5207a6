//! The laws of printed texts, as contracts of functions that compute nothing.

ghost use Rattle.uc_print_laws.specs.Law.{ParsedIsShaped, ReadIsPrintedBack, TextIsLexed, TextIsReadBack, TextIsSpelled, TextKeepsNames, TextShowsWords};

use uc_grammar::Modules;

/// A law of the definitions: the tokens of a printed text are the printed words.
pub fn text_is_lexed()
    ensures { TextIsLexed }
{}

/// A law of the definitions: the words of a printed text are the printed words.
pub fn text_shows_words()
    ensures { TextShowsWords }
{}

/// A law of the definitions: the printed text of modules that are shaped spells them again, places and files aside.
pub fn text_is_spelled()
    ensures { TextIsSpelled }
{
    crate::modules_are_spelled();
}

/// A law of the definitions: what is read of a printed text is what was printed, places and files aside.
pub fn text_is_read_back()
    ensures { TextIsReadBack }
{
    uc_grammar::spells_one_list();
    uc_grammar::stands_alike();
    uc_forms::levels_bound_depths::<Modules>();
    crate::modules_are_spelled();
    crate::names_are_counted();
    crate::names_without_places();
}

/// A law of the definitions: reading a printed text adds no names where those that the grammar knows are there.
pub fn text_keeps_names()
    ensures { TextKeepsNames }
{}

/// A law of the definitions: what the words of a text spell is shaped, so that it is printed and read again.
pub fn parsed_is_shaped()
    ensures { ParsedIsShaped }
{
    crate::spelled_is_shaped();
}

/// A law of the definitions: what is to be read of a text is to be read again of the text that is printed of it.
pub fn read_is_printed_back()
    ensures { ReadIsPrintedBack }
{
    text_is_read_back();
    parsed_is_shaped();
    uc_forms::depths_bound_levels::<Modules>();
    crate::names_are_counted();
}
