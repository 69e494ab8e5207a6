//! Types that are not finite.

ghost use Rattle.std.specs.Prelude.{◌≡◌, IfOk};
ghost use Rattle.uc_runnable.specs.Unfit.{unfit_type};

use std::alloc::{AllocError, Global};
use uc_flat_code::is_cell_type;
use uc_syntax::{Module, Place, TypeExpr};
use uc_type_reader::{Tables, type_of_written};

/// The place, where a written type is none that cells may have.
pub(crate) fn unfit_type(
    alloc: Global,
    tables: &Tables,
    code: &Module,
    place: Place,
    ty: &TypeExpr,
) -> Result<Option<Place>, AllocError>
    ensures { IfOk result (λ p. p ≡ unfit_type tables.now code.now place ty.now) }
{
    let read = type_of_written(alloc, tables, code, ty)?;
    if is_cell_type(&read) {
        Ok(None)
    } else {
        Ok(Some(place))
    }
}
