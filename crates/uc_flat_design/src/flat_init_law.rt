//! Init code of a design of one module and its code over cells, which has further cells behind those of the state, do the same.

ghost use Rattle.uc_flat_design.specs.FlatInitLawLaw.{InitCodeLaw};

/// Init code and the code over cells that stands for it end alike.
pub fn init_means()
    ensures { InitCodeLaw }
{}
