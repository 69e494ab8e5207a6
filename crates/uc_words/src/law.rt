ghost use Rattle.uc_words.specs.Laws.{NamesAreMentioned, StayWords, StaysText, TextHasOneList, TokensAreWithin, TokensHaveOneList, WordsTellTokens};

/// A law of the definitions: the tokens of a text lie in it, as `words` asks.
pub fn tokens_are_within()
    ensures { TokensAreWithin }
{}

/// A law of the definitions: the same names, text and tokens give one list of words.
pub fn tokens_have_one_list()
    ensures { TokensHaveOneList }
{}

/// A law of the definitions: the same names and text give one list of words.
pub fn text_has_one_list()
    ensures { TextHasOneList }
{}

/// A law of the definitions: words stay words where names are added, as by the next text.
pub fn words_stay()
    ensures tokens { StayWords }
    ensures text { StaysText }
{}

/// A law of the definitions: a word mentions its name by the number that the grammar takes.
pub fn names_are_mentioned()
    ensures { NamesAreMentioned }
{}

/// A law of the definitions: the same words under the same names are the same tokens.
pub fn words_tell_tokens()
    ensures { WordsTellTokens }
{}
