//! Tests of types.

ghost use Rattle.std.specs.Prelude.{◌≡◌};
ghost use Rattle.std.specs.List.{list_all};
ghost use Rattle.uc_flat_code.specs.CellTypes.{is_cell_type};

use uc_flat_code::is_cell_type;
use uc_values::Ty;

/// Whether cells may have all these types.
pub(crate) fn are_cell_types(types: &[Ty]) -> bool
    ensures { result ≡ list_all is_cell_type types.now }
{
    types.iter().all(|ty| is_cell_type(ty))
}
