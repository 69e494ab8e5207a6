//! The bounds of loops, and the type of a loop's variable.

ghost use Rattle.std.specs.Prelude.{◌≡◌, ◌++◌, IfOk, OnOk};
ghost use Rattle.uc_expression_rules.specs.Judging.{Finds, FindsOutcome};
ghost use Rattle.uc_rules.specs.Faults.{first_of};
ghost use Rattle.uc_rules.specs.Outcomes.{type_in};
ghost use Rattle.uc_rules.specs.Rows.{pair};
ghost use Rattle.uc_rules.specs.Statements.{bound_outcome, bound_place, counter_outcome, range_faults, range_outcome, written_type_faults};
ghost use Rattle.uc_rules.specs.declared.rows.Chain.TheVariants.{Number};
ghost use Rattle.uc_statement_rules.specs.Judging.{EntersLoop};

use crate::declared::note_taken;
use crate::written::outcome_of;
use std::alloc::{AllocError, Global};
use uc_read_names::Scope;
use uc_rules::{
    Chain, Fault, Known, Outcome, Role, bits_literal, joined, number_literal, same_outcome, settle,
};
use uc_syntax::{Identifier, Place, RangeBound, TypeExpr};
use uc_values::Ty;

fn bound_place(bound: RangeBound) -> Place
    ensures { result ≡ bound_place bound }
{
    match bound {
        RangeBound::Number(place, _, _) => place,
        RangeBound::BitsLiteral(place, _, _) => place,
    }
}

fn bound_outcome(bound: RangeBound) -> Outcome
    ensures { result ≡ bound_outcome bound }
{
    match bound {
        RangeBound::Number(_, _, number) => number_literal(number),
        RangeBound::BitsLiteral(_, number, width) => bits_literal(number, width),
    }
}

fn judge_bound(bound: RangeBound, first: &mut Option<Fault>) -> Option<Ty>
    ensures { FindsOutcome first.old first.new result (bound_place bound) (bound_outcome bound) }
{
    settle(first, bound_place(bound), bound_outcome(bound))
}

/// What both bounds give by their types: one type for both.
fn bounds_outcome(from: &Option<Ty>, to: &Option<Ty>) -> Outcome
    ensures { result ≡ pair Number from.now to.now }
{
    match from {
        Some(from) => match to {
            Some(to) => joined(Chain::Number, from, to),
            None => Outcome::Unjudged,
        },
        None => Outcome::Unjudged,
    }
}

/// What a loop's variable gives by its bounds, also where its type is written.
fn counter_outcome(
    alloc: Global,
    scope: &Scope<'_, '_>,
    written: &Option<TypeExpr>,
    ty: Option<Ty>,
) -> Result<Outcome, AllocError>
    ensures { IfOk result (λ o. o ≡ counter_outcome scope.now written.now ty) }
{
    match written {
        None => Ok(outcome_of(ty)),
        Some(written) => {
            let named = scope.type_of(alloc, written)?;
            Ok(same_outcome(ty, &named))
        }
    }
}

/// Notes the faults of the type that is written for a loop's variable, where one is.
fn note_written_type(
    alloc: Global,
    scope: &Scope<'_, '_>,
    written: &Option<TypeExpr>,
    first: &mut Option<Fault>,
) -> Result<(), AllocError>
    ensures { OnOk result (first.new ≡ first_of first.old (written_type_faults scope.now written.now)) }
{
    match written {
        None => Ok(()),
        Some(written) => {
            scope.note_type(alloc, written, first)?;
            Ok(())
        }
    }
}

/// The type of a loop's variable, where nothing in its range is broken. The faults of the range are noted.
fn judge_range(
    alloc: Global,
    scope: &Scope<'_, '_>,
    place: Place,
    written: &Option<TypeExpr>,
    from: RangeBound,
    to: RangeBound,
    first: &mut Option<Fault>,
) -> Result<Option<Ty>, AllocError>
    ensures { IfOk result (λ t. Finds first.old first.new t (range_faults scope.now place written.now from to) (type_in (counter_outcome scope.now written.now (type_in (range_outcome from to))))) }
{
    let low = judge_bound(from, first);
    let high = judge_bound(to, first);
    let both = settle(first, place, bounds_outcome(&low, &high));
    let outcome = counter_outcome(alloc, scope, written, both)?;
    Ok(settle(first, place, outcome))
}

/// Notes the faults of a loop before its body, in which its variable is known then.
pub(crate) fn enter_loop(
    alloc: Global,
    scope: &mut Scope<'_, '_>,
    place: Place,
    variable: Identifier,
    written: &Option<TypeExpr>,
    from: RangeBound,
    to: RangeBound,
    first: &mut Option<Fault>,
) -> Result<(), AllocError>
    ensures { OnOk result (EntersLoop scope.old place variable written.now from to first.old first.new scope.new) }
{
    note_taken(scope, variable, first);
    note_written_type(alloc, scope, written, first)?;
    let ty = judge_range(alloc, scope, place, written, from, to, first)?;
    let name = variable.name;
    let role = Role::Counter;
    scope.bind(Known { name, role, ty })
}
