//! A law: of a type without arrays, two values are the same exactly where they are equal.

ghost use Rattle.uc_values.specs.Same.{SameLaw};

/// Of a type that holds no array, fitting values are the same exactly where they are equal.
pub fn same_is_equal()
    ensures { SameLaw }
{}
