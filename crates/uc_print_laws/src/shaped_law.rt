ghost use Rattle.uc_print_laws.specs.ShapedLaw.{SpelledIsShaped};

/// A law of the definitions: the modules that words spell are shaped, nest no deeper than the words, and are printed by these words.
pub fn spelled_is_shaped()
    ensures { SpelledIsShaped }
{}
