//! Whether two types are the same.

ghost use Rattle.std.specs.Prelude.{◌≡◌};
ghost use Rattle.uc_rules.specs.Same.{same_type, same_fields, tests};

use uc_values::{Field, Ty};

/// Whether two types are the same.
#[cycle(same)]
pub fn same_type(a: &Ty, b: &Ty) -> bool
    ensures { result ≡ same_type a.now b.now }
{
    match a {
        Ty::Bool => {
            let Ty::Bool = b else {
                return false;
            };
            true
        }
        Ty::Int => {
            let Ty::Int = b else {
                return false;
            };
            true
        }
        Ty::Bv(width) => {
            let Ty::Bv(other) = b else {
                return false;
            };
            width == other
        }
        Ty::Enum(number, labels) => {
            let Ty::Enum(other, own) = b else {
                return false;
            };
            number == other && labels == own
        }
        Ty::Un(number) => {
            let Ty::Un(other) = b else {
                return false;
            };
            number == other
        }
        Ty::Rec(fields) => {
            let Ty::Rec(others) = b else {
                return false;
            };
            same_fields(fields.as_slice(), others.as_slice())
        }
        Ty::Arr(index, element) => {
            let Ty::Arr(other, own) = b else {
                return false;
            };
            if !same_type(index.get(), other.get()) {
                return false;
            }
            same_type(element.get(), own.get())
        }
    }
}

#[cycle(same)]
fn same_fields(fields: &[Field<Ty>], others: &[Field<Ty>]) -> bool
    ensures { result ≡ same_fields (tests fields.now) others.now }
{
    if fields.len() != others.len() {
        return false;
    }
    for place in 0..fields.len() {
        if fields[place].name != others[place].name {
            return false;
        }
        if !same_type(&fields[place].ty, &others[place].ty) {
            return false;
        }
    }
    true
}
