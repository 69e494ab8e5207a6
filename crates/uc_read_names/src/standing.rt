//! What stands before a selection.

ghost use Rattle.std.specs.Prelude.{◌≡◌, List, Some, IfOk};
ghost use Rattle.uc_syntax.specs.declared.declaration.Module.{Module};
ghost use Rattle.uc_rules.specs.Expressions.{Wrong as WrongMeant, standing, standing_type, told};
ghost use Rattle.uc_rules.specs.Faults.{broken};
ghost use Rattle.uc_read_names.specs.Reading.{standing_meant};

use std::alloc::{AllocError, Global};
use uc_rules::{Fault, Outcome, Rule};
use uc_syntax::Place;
use uc_values::{Ty, copy_ty};

/// A value, with its type where it has one; a variable, input or output, which a copy's number may follow; an instance, whose name stands
/// at a place and one of whose module's names must follow, with the place of that module among the modules; a fault; or something that is
/// broken already.
#[derive(Drop)]
pub enum Standing {
    Value(Option<Ty>),
    State(Option<Ty>),
    Inside(Place, usize),
    Wrong(Fault),
    Broken,
}

/// A rule that is broken at a place.
pub(crate) fn wrong(rule: Rule, place: Place) -> Standing
    ensures { (ms : List Module) → standing_meant ms result ≡ WrongMeant (broken rule place) }
{
    Standing::Wrong(Fault { rule, place })
}

impl Standing {
    /// What an outcome at a place stands for.
    pub fn of_outcome(place: Place, outcome: Outcome) -> Standing
        ensures { (ms : List Module) → standing_meant ms result ≡ standing place outcome }
    {
        match outcome {
            Outcome::Has(ty) => Standing::Value(Some(ty)),
            Outcome::Breaks(rule) => wrong(rule, place),
            Outcome::Unjudged => Standing::Value(None),
        }
    }

    /// The type of a value.
    pub fn into_type(self) -> Option<Ty>
        ensures { (ms : List Module) → result ≡ standing_type (standing_meant ms self) }
    {
        match self {
            Standing::Value(ty) => ty,
            _ => None,
        }
    }

    /// What stands here once its fault was told: a fault counts as broken from then on.
    pub fn told(self) -> Standing
        ensures { (ms : List Module) → standing_meant ms result ≡ told (standing_meant ms self) }
    {
        match self {
            Standing::Wrong(_) => Standing::Broken,
            other => other,
        }
    }
}

/// The same type again, where there is one.
pub fn copy_type(alloc: Global, ty: &Option<Ty>) -> Result<Option<Ty>, AllocError>
    ensures { IfOk result (λ t. t ≡ ty.now) }
{
    match ty {
        None => Ok(None),
        Some(ty) => {
            let ty = copy_ty(alloc, ty)?;
            Ok(Some(ty))
        }
    }
}
