//! Whether values fit types, place by place.

ghost use Rattle.std.specs.Prelude.{◌≡◌, slice_get};
ghost use Rattle.std.specs.Bool.{Decides};
ghost use Rattle.uc_meaning.specs.Cells.{FitAll};
ghost use Rattle.uc_meaning.specs.Ends.{first_unfit};
ghost use Rattle.uc_layout.specs.Fits.{all_fit, fits_some};

use uc_items::at;
use uc_values::{Ty, Value, fits};

/// The number of the first type whose value is missing or does not fit.
pub fn first_unfit(types: &[Ty], values: &[Value]) -> Option<usize>
    ensures { result ≡ first_unfit 0 types.now values.now }
{
    for (number, ty) in types.iter().enumerate() {
        if !fits_at(ty, values, number) {
            return Some(number);
        }
    }
    None
}

/// Whether there is a value at a place that fits a type.
fn fits_at(ty: &Ty, values: &[Value], place: usize) -> bool
    ensures { result ≡ fits_some ty.now (slice_get values.now place) }
{
    match at(values, place) {
        Some(value) => fits(ty, value),
        None => false,
    }
}

/// Whether there is one value for each type, which fits it.
pub fn fit_all(types: &[Ty], values: &[Value]) -> bool
    ensures { Decides result (FitAll types.now values.now) }
{
    all_fit(types, values)
}

#[tactic(auto, unfolding(crate::specs::Fits::all_fit))]
pub(crate) fn all_fit(types: &[Ty], values: &[Value]) -> bool
    ensures { result ≡ all_fit types.now values.now }
{
    if types.len() != values.len() {
        return false;
    }
    for place in 0..types.len() {
        if !fits(&types[place], &values[place]) {
            return false;
        }
    }
    true
}
