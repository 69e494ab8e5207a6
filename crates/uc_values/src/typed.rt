//! A value with a type that it fits.

ghost use Rattle.std.specs.Prelude.{◌≡◌, ◌↔◌, IsTrue, IfOk, IfErr, IsOk};
ghost use Rattle.uc_values.specs.Values.{fits};

use crate::fit::fits;
use crate::ty::Ty;
use crate::value::Value;
use std::marker::Model;

/// A type and a value that fits it.
pub struct Typed {
    ty: Ty,
    value: Value,
}

/// A type and a value that does not fit it.
pub struct Unfit {
    pub ty: Ty,
    pub value: Value,
}

impl Model for Typed {
    ghost use Rattle.std.specs.Coded.{codes};
    ghost use Rattle.std.specs.Prelude.{IsTrue};
    ghost use Rattle.uc_values.specs.Values.{fits, TypedValue};
    ghost use Rattle.uc_values.specs.contracts.ty.Ty as types;
    ghost use Rattle.uc_values.specs.contracts.value.Value as values;

    ghost Value = { TypedValue };

    ghost coded = { Prim.hlevel (codes, types.the_row.coded, values.the_row.coded) };

    ghost view = { λ t. record { ty = t.ty; value = t.value } };

    ghost invariant = { λ t. IsTrue (fits t.ty t.value) };
}

impl Typed {
    /// Hands both back where the value does not fit the type.
    pub fn new(ty: Ty, value: Value) -> Result<Typed, Unfit>
        ensures fits { IsOk result ↔ IsTrue (fits ty value) }
        ensures ok { IfOk result (λ t. t ≡ record { ty = ty; value = value }) }
        ensures err { IfErr result (λ u. u ≡ record { ty = ty; value = value }) }
    {
        if fits(&ty, &value) {
            Ok(Typed { ty, value })
        } else {
            Err(Unfit { ty, value })
        }
    }

    pub fn ty(&self) -> &Ty
        ensures { result.now ≡ self.now.ty }
    {
        &self.ty
    }

    pub fn value(&self) -> &Value
        ensures value { result.now ≡ self.now.value }
        ensures fits { IsTrue (fits self.now.ty self.now.value) }
    {
        &self.value
    }
}

impl Drop for Typed {
    fn drop(self) {
        let Typed { ty, value } = self;
        drop(ty);
        drop(value);
    }
}

impl Drop for Unfit {
    fn drop(self) {
        let Unfit { ty, value } = self;
        drop(ty);
        drop(value);
    }
}
