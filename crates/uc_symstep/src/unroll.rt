//! Initial states and steps, over the types of the cells.

ghost use Rattle.std.specs.Prelude.{◌≡◌, ◌<◌, ◌≤◌, take, drop, ◌++◌, List, [], length, map, All, IfOk};
ghost use Rattle.uc_values.specs.declared.ty.Ty.{Ty as AType};
ghost use Rattle.uc_ops.specs.Typing.{AllValid, type_at};
ghost use Rattle.uc_flat.specs.Fine.{AreFine, IsTyped, ReadsTyped};
ghost use Rattle.uc_flat.specs.Flats.{wider_types};
ghost use Rattle.uc_symstep.specs.Growing.{Grows, AreCells};
ghost use Rattle.uc_symstep.specs.Stands.{IsTruth, IsState, Follows};
ghost use Rattle.uc_flat.specs.Unrolled.{wider, started, stepped};
ghost use Rattle.uc_symstep.specs.Unrolled.{IsSeen, Begins, BeginsWide, Doubles, StartsAs, StepsAs};
ghost use Rattle.uc_symstep.specs.Known.{CodeReadsTyped, draw_types, Extends, KnowsPlace, Knows, KnowsState};

use crate::build::literal;
use crate::code::sym_code;
use crate::formula::sym_parts;
use crate::simple::symbol;
use crate::state::{Choice, SymState, Symbolic};
use std::alloc::{AllocError, Global};
use uc_flat::{Expression, Statement};
use uc_items::Items;
use uc_terms::{TermId, Terms};
use uc_values::{Ty, copy_ty};

/// The state before all init code: each cell is a new symbol, which is a choice. `next` is the number of the first.
#[tactic(auto, using(crate::proofs::Grown::grows_on))]
pub(crate) fn begin(
    terms: &mut Terms,
    alloc: Global,
    types: &[Ty],
    next: u32,
) -> Result<Symbolic, AllocError>
    requires valid { AllValid types.now }
    ensures ok { IfOk result (λ t. Begins terms.old terms.new types.now next t) }
    ensures known { IfOk result (λ t. (supply : List AType) → next ≡ length supply → Knows (supply ++ types.now) terms.new t) }
    ensures grown { Grows terms.old terms.new }
{
    let truth = literal(terms, alloc, true)?;
    let mut cells = Items::new(alloc);
    let mut choices = Items::new(alloc);
    let mut number = next;
    for ty in types {
        let Some(after) = number.checked_add(1) else {
            return Err(AllocError);
        };
        let term = symbol(terms, alloc, ty, number)?;
        cells.push(term)?;
        choices.push(Choice { term, taken: truth })?;
        number = after;
    }
    Ok(Symbolic {
        cells,
        path: truth,
        taken: truth,
        choices,
        sites: Items::new(alloc),
        next: number,
    })
}

/// The further cells, as they begin, behind the others.
fn widened(
    terms: &mut Terms,
    alloc: Global,
    types: &[Ty],
    further: &[Expression],
    s: Symbolic,
) -> Result<Symbolic, AllocError>
    requires state { IsState terms.old types.now s }
    requires typed { All (IsTyped types.now) further.now }
    ensures ok { IfOk result (λ t. Follows terms.old terms.new (wider_types types.now further.now) (λ m. wider m types.now further.now) s t) }
    ensures known { IfOk result (λ t. Extends (λ supply. All (ReadsTyped supply) further.now) [] terms.old s terms.new t) }
    ensures grown { Grows terms.old terms.new }
{
    let mut s = s;
    let more = sym_parts(terms, alloc, types, s.cells.as_slice(), further)?;
    s.cells.append(more)?;
    Ok(s)
}

/// The state before all init code, with the further cells.
#[tactic(auto, using(crate::proofs::Grown::grows_on))]
fn begin_wide(
    terms: &mut Terms,
    alloc: Global,
    types: &[Ty],
    further: &[Expression],
    next: u32,
) -> Result<Symbolic, AllocError>
    requires valid { AllValid types.now }
    requires typed { All (IsTyped types.now) further.now }
    ensures ok { IfOk result (λ t. BeginsWide terms.old terms.new types.now further.now next t) }
    ensures known { IfOk result (λ t. (supply : List AType) → All (ReadsTyped supply) further.now → next ≡ length supply → Knows (supply ++ types.now) terms.new t) }
    ensures grown { Grows terms.old terms.new }
{
    let first = begin(terms, alloc, types, next)?;
    let wide = widened(terms, alloc, types, further, first)?;
    Ok(wide)
}

/// The types of terms.
fn types_of_terms(terms: &Terms, alloc: Global, cells: &[TermId]) -> Result<Items<Ty>, AllocError>
    requires { All (λ t. t < length terms.now) cells.now }
    ensures { IfOk result (λ types. types ≡ map (type_at terms.now) cells.now) }
{
    let mut types = Items::new(alloc);
    for cell in cells {
        types.push(copy_ty(alloc, terms.ty(*cell))?)?;
    }
    Ok(types)
}

/// The state that a step begins with: the cells of the old state, and for the new state the same terms.
fn doubled(
    terms: &mut Terms,
    alloc: Global,
    types: &[Ty],
    both_types: &[Ty],
    cells: &[TermId],
    path: TermId,
    next: u32,
) -> Result<Symbolic, AllocError>
    requires cells { AreCells terms.old types.now cells.now }
    requires path { IsTruth terms.old path }
    requires types { both_types.now ≡ types.now ++ types.now }
    ensures ok { IfOk result (λ t. Doubles terms.old terms.new both_types.now cells.now path next t) }
    ensures known { IfOk result (λ t. (supply : List AType) → KnowsPlace supply terms.old cells.now path next → Knows supply terms.new t) }
    ensures grown { Grows terms.old terms.new }
{
    let taken = literal(terms, alloc, true)?;
    let mut twice = Items::from_slice(alloc, cells)?;
    let copy = Items::from_slice(alloc, cells)?;
    twice.append(copy)?;
    Ok(Symbolic {
        cells: twice,
        path,
        taken,
        choices: Items::new(alloc),
        sites: Items::new(alloc),
        next,
    })
}

/// The cells past as many as there are types.
fn second_half(alloc: Global, types: &[Ty], cells: &[TermId]) -> Result<Items<TermId>, AllocError>
    requires { length types.now ≤ length cells.now }
    ensures { IfOk result (λ xs. xs ≡ drop (length types.now) cells.now) }
{
    let rest = &cells[types.len()..];
    let xs = Items::from_slice(alloc, rest)?;
    Ok(xs)
}

/// As many cells as there are types.
fn first_part(alloc: Global, types: &[Ty], cells: &[TermId]) -> Result<Items<TermId>, AllocError>
    requires { length types.now ≤ length cells.now }
    ensures { IfOk result (λ xs. xs ≡ take (length types.now) cells.now) }
{
    let front = &cells[..types.len()];
    let xs = Items::from_slice(alloc, front)?;
    Ok(xs)
}

/// The state after the init code, which has further cells, with the number of the next symbol.
pub(crate) fn start(
    terms: &mut Terms,
    alloc: Global,
    types: &[Ty],
    further: &[Expression],
    init: &[Statement],
    next: u32,
) -> Result<(SymState, u32), AllocError>
    requires valid { AllValid types.now }
    requires typed { All (IsTyped types.now) further.now }
    requires fine { AreFine (wider_types types.now further.now) init.now }
    ensures ok { IfOk result (λ r. StartsAs terms.old terms.new types.now (λ m. started m types.now further.now init.now next) r.0 r.1) }
    ensures known { IfOk result (λ r. (supply : List AType) → All (ReadsTyped supply) further.now → CodeReadsTyped supply init.now → next ≡ length supply → KnowsState ((supply ++ types.now) ++ draw_types (wider_types types.now further.now) init.now) terms.new r.0 r.1) }
    ensures grown { Grows terms.old terms.new }
{
    let first = begin_wide(terms, alloc, types, further, next)?;
    let wide_types = types_of_terms(terms, alloc, first.cells.as_slice())?;
    let last = sym_code(terms, alloc, wide_types.as_slice(), first, init)?;
    let cells = first_part(alloc, types, last.cells.as_slice())?;
    let Symbolic {
        cells: _,
        path,
        taken: _,
        choices,
        sites,
        next: after,
    } = last;
    let state = SymState {
        cells,
        path,
        sites,
        choices,
    };
    Ok((state, after))
}

/// The state after a step, whose code runs over the old and the new cells, with the number of the next symbol.
pub(crate) fn step_on(
    terms: &mut Terms,
    alloc: Global,
    types: &[Ty],
    both_types: &[Ty],
    pre: &SymState,
    step: &[Statement],
    next: u32,
) -> Result<(SymState, u32), AllocError>
    requires state { IsSeen terms.old types.now pre.now }
    requires types { both_types.now ≡ types.now ++ types.now }
    requires fine { AreFine both_types.now step.now }
    ensures ok { IfOk result (λ r. StepsAs terms.old terms.new types.now (λ m. stepped m types.now step.now) pre.now next r.0 r.1) }
    ensures known { IfOk result (λ r. (supply : List AType) → CodeReadsTyped supply step.now → KnowsState supply terms.old pre.now next → KnowsState (supply ++ draw_types both_types.now step.now) terms.new r.0 r.1) }
    ensures grown { Grows terms.old terms.new }
{
    let first = doubled(
        terms,
        alloc,
        types,
        both_types,
        pre.cells.as_slice(),
        pre.path,
        next,
    )?;
    let last = sym_code(terms, alloc, both_types, first, step)?;
    let cells = second_half(alloc, types, last.cells.as_slice())?;
    let Symbolic {
        cells: _,
        path,
        taken: _,
        choices,
        sites,
        next: after,
    } = last;
    let state = SymState {
        cells,
        path,
        sites,
        choices,
    };
    Ok((state, after))
}
