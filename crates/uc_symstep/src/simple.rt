//! Statements without statements inside them.

ghost use Rattle.std.specs.Prelude.{◌≡◌, ◌<◌, ◌∷◌, ◌++◌, ◌&&◌, List, [], IfOk, Some, map, not, slice_get, length};
ghost use Rattle.uc_values.specs.declared.ty.Ty.{Ty as AType};
ghost use Rattle.uc_values.specs.declared.ty.Ty.TheVariants.{Bool};
ghost use Rattle.uc_values.specs.declared.value.Value.TheVariants.{Bool as Truth};
ghost use Rattle.uc_ops.specs.Typing.{Valid, part_type};
ghost use Rattle.uc_terms.specs.Values.{value};
ghost use Rattle.uc_flat.specs.Reading.{type_of, is_true};
ghost use Rattle.uc_flat.specs.Fine.{IsTyped, IsTest, ReadsTyped};
ghost use Rattle.uc_flat.specs.Drawn.{takes, free, assigns, assumes, asserts, listed_if};
ghost use Rattle.uc_symstep.specs.Growing.{Grows, IsTerm};
ghost use Rattle.uc_symstep.specs.Stands.{holds, IsState, Follows, IsSymbol, IsHavocked};
ghost use Rattle.uc_symstep.specs.Known.{IsKnown, Extends};

use crate::build::{both, negated};
use crate::formula::sym_expression;
use crate::state::{Choice, Hit, Symbolic};
use std::alloc::{AllocError, Global};
use uc_flat::Expression;
use uc_items::Items;
use uc_terms::{Op, TermId, Terms};
use uc_values::{Ty, copy_ty};

pub(crate) fn assign(
    terms: &mut Terms,
    alloc: Global,
    types: &[Ty],
    s: Symbolic,
    k: u32,
    e: &Expression,
) -> Result<Symbolic, AllocError>
    requires state { IsState terms.old types.now s }
    requires typed { IsTyped types.now e.now }
    requires fine { slice_get types.now k ≡ Some (type_of types.now e.now) }
    ensures ok { IfOk result (λ t. Follows terms.old terms.new types.now (λ m. assigns m types.now k e.now) s t) }
    ensures known { IfOk result (λ t. Extends (λ supply. ReadsTyped supply e.now) [] terms.old s terms.new t) }
    ensures grown { Grows terms.old terms.new }
{
    let mut s = s;
    let t = sym_expression(terms, alloc, types, s.cells.as_slice(), e)?;
    s.cells.set(k as usize, t);
    Ok(s)
}

pub(crate) fn assume(
    terms: &mut Terms,
    alloc: Global,
    types: &[Ty],
    s: Symbolic,
    e: &Expression,
) -> Result<Symbolic, AllocError>
    requires state { IsState terms.old types.now s }
    requires fine { IsTest types.now e.now }
    ensures ok { IfOk result (λ t. Follows terms.old terms.new types.now (λ m. assumes m types.now e.now) s t) }
    ensures known { IfOk result (λ t. Extends (λ supply. ReadsTyped supply e.now) [] terms.old s terms.new t) }
    ensures grown { Grows terms.old terms.new }
{
    let mut s = s;
    let t = sym_expression(terms, alloc, types, s.cells.as_slice(), e)?;
    let path = both(terms, alloc, s.path, t)?;
    s.path = path;
    Ok(s)
}

pub(crate) fn assert_at(
    terms: &mut Terms,
    alloc: Global,
    types: &[Ty],
    s: Symbolic,
    site: u32,
    e: &Expression,
) -> Result<Symbolic, AllocError>
    requires state { IsState terms.old types.now s }
    requires fine { IsTest types.now e.now }
    ensures ok { IfOk result (λ t. Follows terms.old terms.new types.now (λ m. asserts m types.now site e.now) s t) }
    ensures known { IfOk result (λ t. Extends (λ supply. ReadsTyped supply e.now) [] terms.old s terms.new t) }
    ensures grown { Grows terms.old terms.new }
{
    let mut s = s;
    let failed = failing(terms, alloc, types, &s, e)?;
    s.sites.push(Hit { site, failed })?;
    Ok(s)
}

/// That the code is taken, and a condition is false.
fn failing(
    terms: &mut Terms,
    alloc: Global,
    types: &[Ty],
    s: &Symbolic,
    e: &Expression,
) -> Result<TermId, AllocError>
    requires state { IsState terms.old types.now s.now }
    requires fine { IsTest types.now e.now }
    ensures ok { IfOk result (λ t. IsTerm terms.old terms.new t Bool (λ m. Truth (holds m terms.old s.now.taken && not (is_true m types.now (map (value m terms.old) s.now.cells) e.now)))) }
    ensures grown { Grows terms.old terms.new }
{
    let t = sym_expression(terms, alloc, types, s.cells.as_slice(), e)?;
    let negation = negated(terms, alloc, t)?;
    let failed = both(terms, alloc, s.taken, negation)?;
    Ok(failed)
}

/// A new symbol.
pub(crate) fn symbol(
    terms: &mut Terms,
    alloc: Global,
    ty: &Ty,
    number: u32,
) -> Result<TermId, AllocError>
    requires { Valid ty.now }
    ensures ok { IfOk result (λ t. IsSymbol terms.old terms.new t ty.now number) }
    ensures known { IfOk result (λ t. (supply : List AType) → slice_get supply number ≡ Some ty.now → IsKnown supply terms.new t) }
    ensures grown { Grows terms.old terms.new }
{
    let ty = copy_ty(alloc, ty)?;
    let t = terms.mk(alloc, Op::Symbol(number, ty), &[])?;
    Ok(t)
}

/// The choices with one more, where it is listed.
fn with_choice(
    choices: Items<Choice>,
    listed: bool,
    term: TermId,
    taken: TermId,
) -> Result<Items<Choice>, AllocError>
    ensures { IfOk result (λ all. all ≡ choices ++ listed_if listed (record { term = term; taken = taken })) }
{
    let mut choices = choices;
    if listed {
        choices.push(Choice { term, taken })?;
    }
    Ok(choices)
}

pub(crate) fn havoc(
    terms: &mut Terms,
    alloc: Global,
    types: &[Ty],
    s: Symbolic,
    k: u32,
    listed: bool,
) -> Result<Symbolic, AllocError>
    requires state { IsState terms.old types.now s }
    requires fine { IsHavocked types.now k }
    ensures ok { IfOk result (λ t. Follows terms.old terms.new types.now (λ m r. takes listed (free m.symbols (part_type types.now k) r.next) k r) s t) }
    ensures known { IfOk result (λ t. Extends (λ supply. Unit {0}) (part_type types.now k ∷ []) terms.old s terms.new t) }
    ensures grown { Grows terms.old terms.new }
{
    let Some(next) = s.next.checked_add(1) else {
        return Err(AllocError);
    };
    let t = symbol(terms, alloc, &types[k as usize], s.next)?;
    let Symbolic {
        mut cells,
        path,
        taken,
        choices,
        sites,
        next: _,
    } = s;
    cells.set(k as usize, t);
    let choices = with_choice(choices, listed, t, taken)?;
    Ok(Symbolic {
        cells,
        path,
        taken,
        choices,
        sites,
        next,
    })
}
