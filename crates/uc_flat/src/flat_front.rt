//! A law: an expression over cells says the same where more cells follow.

ghost use Rattle.uc_flat.specs.Front.{FrontLaw};

/// An expression that reads the first cells alone, where more cells follow.
pub fn more_cells()
    ensures { FrontLaw }
{}
