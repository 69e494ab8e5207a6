//! Conditionals.

ghost use Rattle.std.specs.Prelude.{◌≡◌, ◌<◌, List, length, map, IfOk, All};
ghost use Rattle.uc_values.specs.declared.ty.Ty.{Ty as AType};
ghost use Rattle.uc_values.specs.Values.{truth_of};
ghost use Rattle.uc_ops.specs.Typing.{type_at};
ghost use Rattle.uc_terms.specs.Values.{value};
ghost use Rattle.uc_flat.specs.Drawn.{either};
ghost use Rattle.uc_flat.specs.Fine.{IsTest, ReadsTyped};
ghost use Rattle.uc_symstep.specs.Growing.{Grows, IsTerm, AreCells};
ghost use Rattle.uc_symstep.specs.Stands.{IsState, IsTruth, Opens, Merges, Joins};
ghost use Rattle.uc_symstep.specs.Arms.{opened};
ghost use Rattle.uc_symstep.specs.Known.{IsKnown, Knows, KnowsArms};

use crate::build::{both, either, negated};
use crate::formula::sym_expression;
use crate::state::Symbolic;
use std::alloc::{AllocError, Global};
use uc_flat::Expression;
use uc_items::Items;
use uc_terms::{TermId, Terms};
use uc_values::Ty;

/// What the arms of a conditional begin with, and what its end needs.
#[derive(Drop)]
pub(crate) struct Open {
    pub condition: TermId,
    pub other: TermId,
    pub first: Symbolic,
    pub cells: Items<TermId>,
    pub path: TermId,
    pub taken: TermId,
}

/// The two arms of a conditional, before they are run.
pub(crate) fn open_arms(
    terms: &mut Terms,
    alloc: Global,
    types: &[Ty],
    s: Symbolic,
    e: &Expression,
) -> Result<Open, AllocError>
    requires state { IsState terms.old types.now s }
    requires fine { IsTest types.now e.now }
    ensures ok { IfOk result (λ o. Opens terms.old terms.new types.now e.now s o) }
    ensures known { IfOk result (λ o. (supply : List AType) → ReadsTyped supply e.now → Knows supply terms.old s → KnowsArms supply terms.new o) }
    ensures grown { Grows terms.old terms.new }
{
    let (condition, inner, other) = arm_terms(terms, alloc, types, &s, e)?;
    let cells = Items::from_slice(alloc, s.cells.as_slice())?;
    let Symbolic {
        cells: own,
        path,
        taken,
        choices,
        sites,
        next,
    } = s;
    Ok(Open {
        condition,
        other,
        first: Symbolic {
            cells: own,
            path,
            taken: inner,
            choices,
            sites,
            next,
        },
        cells,
        path,
        taken,
    })
}

/// The condition of a conditional, and the terms that tell whether its arms are taken.
fn arm_terms(
    terms: &mut Terms,
    alloc: Global,
    types: &[Ty],
    s: &Symbolic,
    e: &Expression,
) -> Result<(TermId, TermId, TermId), AllocError>
    requires state { IsState terms.old types.now s.now }
    requires fine { IsTest types.now e.now }
    ensures ok { IfOk result (λ r. Opens terms.old terms.new types.now e.now s.now (opened s.now r.0 r.1 r.2 s.now.cells)) }
    ensures known { IfOk result (λ r. (supply : List AType) → ReadsTyped supply e.now → Knows supply terms.old s.now → KnowsArms supply terms.new (opened s.now r.0 r.1 r.2 s.now.cells)) }
    ensures grown { Grows terms.old terms.new }
{
    let condition = sym_expression(terms, alloc, types, s.cells.as_slice(), e)?;
    let negation = negated(terms, alloc, condition)?;
    let inner = both(terms, alloc, s.taken, condition)?;
    let other = both(terms, alloc, s.taken, negation)?;
    Ok((condition, inner, other))
}

/// A cell after a conditional.
fn merged_cell(
    terms: &mut Terms,
    alloc: Global,
    condition: TermId,
    x: TermId,
    y: TermId,
) -> Result<TermId, AllocError>
    requires condition { IsTruth terms.old condition }
    requires there { (x < length terms.old) × (y < length terms.old) }
    requires alike { type_at terms.old x ≡ type_at terms.old y }
    ensures ok { IfOk result (λ r. IsTerm terms.old terms.new r (type_at terms.old y) (λ m. either (truth_of (value m terms.old condition)) (value m terms.old x) (value m terms.old y))) }
    ensures known { IfOk result (λ r. (supply : List AType) → IsKnown supply terms.old condition → IsKnown supply terms.old x → IsKnown supply terms.old y → IsKnown supply terms.new r) }
    ensures grown { Grows terms.old terms.new }
{
    if x.index() == y.index() {
        return Ok(y);
    }
    let r = either(terms, alloc, condition, x, y)?;
    Ok(r)
}

/// The cells after a conditional: a new term only where the arms have different ones.
#[tactic(auto, using(crate::proofs::Branches::merged_none, crate::proofs::Grown::grows_on))]
fn merged(
    terms: &mut Terms,
    alloc: Global,
    types: &[Ty],
    condition: TermId,
    xs: &[TermId],
    ys: &[TermId],
) -> Result<Items<TermId>, AllocError>
    requires condition { IsTruth terms.old condition }
    requires first { AreCells terms.old types.now xs.now }
    requires second { AreCells terms.old types.now ys.now }
    ensures ok { IfOk result (λ zs. Merges terms.old terms.new types.now condition xs.now ys.now zs) }
    ensures known { IfOk result (λ zs. (supply : List AType) → IsKnown supply terms.old condition → All (IsKnown supply terms.old) xs.now → All (IsKnown supply terms.old) ys.now → All (IsKnown supply terms.new) zs) }
    ensures grown { Grows terms.old terms.new }
{
    let mut zs = Items::new(alloc);
    for place in 0..xs.len() {
        let z = merged_cell(terms, alloc, condition, xs[place], ys[place])?;
        zs.push(z)?;
    }
    Ok(zs)
}

/// The state after a conditional, from those after its arms.
pub(crate) fn join(
    terms: &mut Terms,
    alloc: Global,
    types: &[Ty],
    condition: TermId,
    taken: TermId,
    cells: &[TermId],
    path: TermId,
    second: Symbolic,
) -> Result<Symbolic, AllocError>
    requires state { IsState terms.old types.now second }
    requires condition { IsTruth terms.old condition }
    requires taken { IsTruth terms.old taken }
    requires path { IsTruth terms.old path }
    requires cells { AreCells terms.old types.now cells.now }
    ensures ok { IfOk result (λ t. Joins terms.old terms.new types.now condition taken cells.now path second t) }
    ensures known { IfOk result (λ t. (supply : List AType) → IsKnown supply terms.old condition → All (IsKnown supply terms.old) cells.now → IsKnown supply terms.old path → Knows supply terms.old second → Knows supply terms.new t) }
    ensures grown { Grows terms.old terms.new }
{
    let Symbolic {
        cells: others,
        path: other_path,
        taken: _,
        choices,
        sites,
        next,
    } = second;
    let cells = merged(terms, alloc, types, condition, cells, others.as_slice())?;
    let path = either(terms, alloc, condition, path, other_path)?;
    Ok(Symbolic {
        cells,
        path,
        taken,
        choices,
        sites,
        next,
    })
}
