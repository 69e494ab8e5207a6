ghost use Rattle.uc_lexer.specs.Text.{HasOneReading, HasRisingTokens};

/// A law of the definitions: a text has at most one list of tokens or first fault.
pub fn text_has_one_reading()
    ensures { HasOneReading }
{}

/// A law of the definitions: the spans and the places of the tokens of a text rise.
pub fn tokens_rise()
    ensures { HasRisingTokens }
{}
