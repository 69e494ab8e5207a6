//! Lowering of terms.

ghost use Rattle.std.specs.Prelude.{◌≡◌, ℕ, ◌<◌, ◌≤◌, ◌++◌, ◌∷◌, [], All, length, IfOk, OnOk, true};
ghost use Rattle.uc_values.specs.declared.ty.Ty.{Ty};
ghost use Rattle.uc_values.specs.declared.ty.Ty.TheVariants.{Bool};
ghost use Rattle.uc_ops.specs.declared.op.Op.TheVariants.{Symbol};
ghost use Rattle.uc_ops.specs.Typing.{type_at};
ghost use Rattle.uc_terms.specs.Tables.{WellTyped, HasOp};
ghost use Rattle.uc_terms.specs.Subterms.{EvenlyTyped};
ghost use Rattle.uc_terms.specs.Laws.{KeepsValues};
ghost use Rattle.uc_lower.specs.Made.{Grows, Within, HasBits};
ghost use Rattle.uc_lower.specs.Steps.{IsLowerable};
ghost use Rattle.uc_lower.specs.Symbols.{AreTruths};
ghost use Rattle.uc_lower.specs.Lowering.{IsSymbol, IsFiniteTerm, CorrespondBy, IsMapOf, IsLoweredTerm};
ghost use Rattle.uc_lower.specs.Bits.{HasNoMoreBits};
ghost use Rattle.uc_lower.specs.Walk.{is_symbol, IsFresh, paired, IsStep, IsGoal};

use crate::build::conjunction;
use crate::nodes::{low_inner, low_of};
use crate::symbols::{following, stand_ins};
use std::alloc::{AllocError, Global};
use uc_items::Items;
use uc_terms::{Op, SymbolMap, TermId, Terms, subterms};

/// A term of booleans and bit-vectors that stands for a term, and for each symbol of that term the terms that stand for
/// its innermost fields.
#[derive(Drop)]
pub struct Lowered {
    pub goal: TermId,
    pub map: SymbolMap,
}

/// Lowers a boolean term: records become their fields, and enums bits, whose ranges are conditions of the goal. Takes a step
/// for each number up to the term's.
pub fn lower(alloc: Global, terms: &mut Terms, t: TermId) -> Result<Lowered, AllocError>
    requires there { t < length terms.old }
    requires boolean { type_at terms.old t ≡ Bool }
    requires even { EvenlyTyped terms.old t }
    requires finite { IsFiniteTerm terms.old t }
    ensures corresponds { IfOk result (λ l. CorrespondBy terms.old t terms.new l.goal l.map.pairs) }
    ensures map { IfOk result (λ l. IsMapOf terms.old t terms.new l.goal l.map.pairs) }
    ensures even { IfOk result (λ l. EvenlyTyped terms.new l.goal) }
    ensures lowered { IfOk result (λ l. IsLoweredTerm terms.new l.goal) }
    ensures bits { IfOk result (λ l. HasNoMoreBits terms.old t terms.new l.goal) }
    ensures grown { Grows terms.old terms.new }
    ensures kept { KeepsValues terms.old terms.new }
{
    walk(alloc, terms, t)
}

/// The walk over the subterms, by their numbers.
fn walk(alloc: Global, terms: &mut Terms, t: TermId) -> Result<Lowered, AllocError>
    requires there { t < length terms.old }
    requires boolean { type_at terms.old t ≡ Bool }
    requires even { EvenlyTyped terms.old t }
    requires finite { IsFiniteTerm terms.old t }
    ensures corresponds { IfOk result (λ l. CorrespondBy terms.old t terms.new l.goal l.map.pairs) }
    ensures map { IfOk result (λ l. IsMapOf terms.old t terms.new l.goal l.map.pairs) }
    ensures even { IfOk result (λ l. EvenlyTyped terms.new l.goal) }
    ensures lowered { IfOk result (λ l. IsLoweredTerm terms.new l.goal) }
    ensures bits { IfOk result (λ l. HasNoMoreBits terms.old t terms.new l.goal) }
    ensures grown { Grows terms.old terms.new }
{
    let _well_typed = terms.nodes();
    let marks = subterms(alloc, terms, &[t])?;
    let mut next = fresh(terms, marks.as_slice())?;
    let mut lowered: Vec<Items<TermId>> = Vec::new(alloc);
    let mut pairs: Vec<(TermId, TermId)> = Vec::new(alloc);
    let mut conditions: Vec<TermId> = Vec::new(alloc);
    for place in 0..marks.len() {
        let low = low_at(
            alloc,
            terms,
            lowered.as_slice(),
            marks[place],
            place,
            &mut next,
            &mut pairs,
            &mut conditions,
        )?;
        lowered.push(low)?;
    }
    let done = lowered.as_slice();
    let root = low_of(done, t)[0];
    let goal = goal(alloc, terms, conditions, root)?;
    Ok(Lowered {
        goal,
        map: SymbolMap {
            pairs: Items::from_vec(pairs),
        },
    })
}

/// A number above those of the symbols that are marked.
fn fresh(terms: &Terms, marks: &[bool]) -> Result<u32, AllocError>
    requires { length marks.now ≤ length terms.now }
    ensures { IfOk result (λ n. IsFresh terms.now marks.now (length marks.now) n) }
{
    let mut above = 0;
    for place in 0..marks.len() {
        above = raised(above, marks[place], terms, place)?;
    }
    Ok(above)
}

/// A number raised above that of a symbol that is marked.
fn raised(above: u32, marked: bool, terms: &Terms, place: usize) -> Result<u32, AllocError>
    requires { place < length terms.now }
    ensures above { IfOk result (λ n. above ≤ n) }
    ensures next { IfOk result (λ n. marked ≡ true → (number : ℕ) (ty : Ty) → HasOp terms.now place (Symbol number ty) → number < n) }
{
    if !marked {
        return Ok(above);
    }
    match &terms.node(place).op {
        Op::Symbol(number, _) => {
            if *number < above {
                return Ok(above);
            }
            let next = following(*number)?;
            Ok(next)
        }
        _ => Ok(above),
    }
}

/// The term at a place.
fn term_at(terms: &Terms, place: usize) -> TermId
    requires { place < length terms.now }
    ensures { result ≡ place }
{
    let count = terms.len() as usize;
    prove!(place < count);
    TermId::new(place as u32)
}

/// What stands for the term at a place, and nothing where it is not marked.
fn low_at(
    alloc: Global,
    terms: &mut Terms,
    lowered: &[Items<TermId>],
    marked: bool,
    place: usize,
    next: &mut u32,
    pairs: &mut Vec<(TermId, TermId)>,
    conditions: &mut Vec<TermId>,
) -> Result<Items<TermId>, AllocError>
    requires well { WellTyped terms.old }
    requires there { place < length terms.old }
    requires bits { marked ≡ true → HasBits (type_at terms.old place) }
    requires lowerable { marked ≡ true → (IsSymbol terms.old place → ⊥) → IsLowerable terms.old lowered.now place }
    requires conditions { Within terms.old conditions.old.items }
    requires truths { AreTruths terms.old conditions.old.items }
    ensures step { IfOk result (λ us. IsStep terms.old terms.new lowered.now marked place us next.old next.new pairs.old.items pairs.new.items conditions.old.items conditions.new.items) }
    ensures grown { Grows terms.old terms.new }
{
    if !marked {
        return Ok(Items::new(alloc));
    }
    let t = term_at(terms, place);
    if symbol(terms.op(t)) {
        let symbols = stand_ins(alloc, terms, t, next, conditions)?;
        pair(pairs, t, symbols.as_slice())?;
        return Ok(Items::from_vec(symbols));
    }
    let low = low_inner(alloc, terms, lowered, t)?;
    Ok(Items::from_vec(low))
}

/// Whether an operation is a symbol.
fn symbol(op: &Op) -> bool
    ensures { result ≡ is_symbol op.now }
{
    matches!(op, Op::Symbol(_, _))
}

/// Adds the pairs of a symbol with what stands for it.
fn pair(pairs: &mut Vec<(TermId, TermId)>, t: TermId, symbols: &[TermId]) -> Result<(), AllocError>
    ensures { OnOk result (pairs.new.items ≡ pairs.old.items ++ paired t symbols.now) }
{
    for symbol in symbols {
        pairs.push((t, *symbol))?;
    }
    Ok(())
}

/// The conjunction of the conditions and of what stands for a boolean term.
fn goal(
    alloc: Global,
    terms: &mut Terms,
    conditions: Vec<TermId>,
    root: TermId,
) -> Result<TermId, AllocError>
    requires well { WellTyped terms.old }
    requires conditions { Within terms.old conditions.items }
    requires truths { AreTruths terms.old conditions.items }
    requires there { root < length terms.old }
    requires boolean { type_at terms.old root ≡ Bool }
    ensures goal { IfOk result (λ u. IsGoal terms.old terms.new conditions.items root u) }
    ensures grown { Grows terms.old terms.new }
{
    if conditions.is_empty() {
        return Ok(root);
    }
    let mut tests = conditions;
    tests.push(root)?;
    let goal = conjunction(alloc, terms, tests.as_slice())?;
    Ok(goal)
}
