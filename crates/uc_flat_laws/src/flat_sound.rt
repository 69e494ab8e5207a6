//! Laws: the design over cells of a design is sound, and reads its constants at their types, which are valid.

ghost use Rattle.uc_flat_laws.specs.Law.{SoundLaw, OwnTypesLaw, ValidConstantsLaw};

/// Its code and its formulas fit its cells.
pub fn is_sound()
    ensures { SoundLaw }
{}

/// Its code and its formulas read each constant at its type.
pub fn reads_own_types()
    ensures { OwnTypesLaw }
{}

/// The types of its constants are valid.
pub fn has_valid_constants()
    ensures { ValidConstantsLaw }
{}
