//! The names of a design of one module over numbered cells and constants, and the laws that they stand for what they mean.

ghost use Rattle.uc_flat_design.specs.FlatNamesLaw.{NamesLaw, ConstantsLaw};

/// Each name of main stands for what it means, in every scope of main outside blocks with locals.
pub fn names_mean()
    ensures { NamesLaw }
{}

/// Each name that an axiom of main may read does so too, where there are no cells.
pub fn constants_mean()
    ensures { ConstantsLaw }
{}
