//! The laws, as contracts of functions that compute nothing.

ghost use Rattle.uc_print_laws.specs.NameCountsLaw.{NamesAreCounted, NamesWithoutPlaces};

/// A law of the definitions: a declared name of a text is past a limit exactly where some module declares more names.
pub fn names_are_counted()
    ensures { NamesAreCounted }
{}

/// A law of the definitions: the same modules, places aside, declare as many names.
pub fn names_without_places()
    ensures { NamesWithoutPlaces }
{}
