//! Laws of code that stands for code of a design: it fits the cells, and reads only constants that there are, at their types.

ghost use Rattle.uc_flat_laws.specs.Fits.{FitsLaw, ReadsLaw, TypedLaw, StepLaw, InitLaw, InitTypedLaw};

/// The types of code.
pub fn fits()
    ensures { FitsLaw }
{}

/// The constants of code.
pub fn reads()
    ensures { ReadsLaw }
{}

/// The types at which code reads constants.
pub fn reads_typed()
    ensures { TypedLaw }
{}

/// The cells that a next block writes.
pub fn step()
    ensures { StepLaw }
{}

/// The types of init code, and of what its further cells begin with.
pub fn init()
    ensures { InitLaw }
{}

/// The types at which init code reads constants.
pub fn init_typed()
    ensures { InitTypedLaw }
{}
