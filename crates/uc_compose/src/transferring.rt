//! Terms of one table in another.

ghost use Rattle.std.specs.Prelude.{◌≡◌, ◌+◌, ◌<◌, ◌≤◌, [], ◌∷◌, nat_eq, length, map, IfOk, IsSome, All, Some};
ghost use Rattle.indexmap.specs.IndexMap.{get};
ghost use Rattle.uc_ops.specs.Typing.{type_at};
ghost use Rattle.uc_terms.specs.Tables.{WellTyped, parts_at};
ghost use Rattle.uc_terms.specs.Laws.{SameUnderEveryModel};
ghost use Rattle.uc_simplify_steps.specs.Features.{BringsNoMore};
ghost use Rattle.uc_compose.specs.Below.{AddsNoMore};
ghost use Rattle.uc_compose.specs.Copies.{Grows, IsCopy, AreCopies, IsCopied};

use crate::below::below;
use crate::renaming::moved_op;
use indexmap::IndexMap;
use std::alloc::{AllocError, Global};
use uc_items::Items;
use uc_terms::{TermId, Terms};

/// The copies of terms of one table in another, in which each symbol whose number is not below `shared` has its number raised by `by`. What is
/// not below these terms is left out, and takes no time. Memory also counts as used up where a number leaves 32 bits.
pub fn transfer(
    alloc: Global,
    from: &Terms,
    into: &mut Terms,
    roots: &[TermId],
    shared: u32,
    by: u32,
) -> Result<Items<TermId>, AllocError>
    requires there { All (λ t. t < length from.now) roots.now }
    ensures copies { IfOk result (λ rs. AreCopies shared by into.new from.now rs roots.now) }
    ensures few { IfOk result (λ _. AddsNoMore from.now roots.now into.old into.new) }
    ensures grown { Grows into.old into.new }
{
    let _count = from.len();
    let _begin = into.len();
    let listed = below(alloc, from, roots)?;
    let terms = listed.as_slice();
    let mut copies: IndexMap<TermId, TermId> = IndexMap::new(alloc);
    let mut place = terms.len();
    'walk: while place > 0 {
        place -= 1;
        let term = terms[place];
        let copy = transferred(alloc, from, into, term, &copies, shared, by)?;
        copies.insert(term, copy)?;
    }
    copies_of(alloc, roots, &copies)
}

/// The copy of a term, from the copies of its parts.
fn transferred(
    alloc: Global,
    from: &Terms,
    into: &mut Terms,
    term: TermId,
    copies: &IndexMap<TermId, TermId>,
    shared: u32,
    by: u32,
) -> Result<TermId, AllocError>
    requires there { term < length from.now }
    requires parts { All (IsCopied shared by into.old from.now (get nat_eq copies.now)) (parts_at from.now term) }
    ensures copy { IfOk result (λ r. IsCopy shared by into.new r from.now term) }
    ensures short { length into.new ≤ length into.old + 1 }
    ensures grown { Grows into.old into.new }
    ensures well { WellTyped into.new }
{
    let _count = into.len();
    let node = from.node(term.index());
    let parts = copies_of(alloc, node.parts.as_slice(), copies)?;
    let op = moved_op(alloc, &node.op, shared, by)?;
    let made = into.mk(alloc, op, parts.as_slice());
    let _later = into.len();
    made
}

/// The copies of these terms.
fn copies_of(
    alloc: Global,
    terms: &[TermId],
    copies: &IndexMap<TermId, TermId>,
) -> Result<Items<TermId>, AllocError>
    requires { All (λ t. IsSome (get nat_eq copies.now t)) terms.now }
    ensures { IfOk result (λ rs. map Some rs ≡ map (get nat_eq copies.now) terms.now) }
{
    let mut all = Items::new(alloc);
    for term in terms {
        let copy = copy_of(*term, copies);
        all.push(copy)?;
    }
    Ok(all)
}

/// The copy of a term that has one.
fn copy_of(term: TermId, copies: &IndexMap<TermId, TermId>) -> TermId
    requires { IsSome (get nat_eq copies.now term) }
    ensures { get nat_eq copies.now term ≡ Some result }
{
    match copies.get(&term).copied() {
        Some(copy) => copy,
        None => unreachable!(),
    }
}

/// The term in an empty table, which then has only what is at or below it: a walk over that table takes time by what the term is about, and not by
/// what else was made before it.
pub fn slice(alloc: Global, terms: &Terms, t: TermId, own: &mut Terms) -> Result<TermId, AllocError>
    requires there { t < length terms.now }
    requires empty { own.old ≡ [] }
    ensures there { IfOk result (λ r. r < length own.new) }
    ensures same { IfOk result (λ r. SameUnderEveryModel own.new r terms.now t) }
    ensures ty { IfOk result (λ r. type_at own.new r ≡ type_at terms.now t) }
    ensures features { IfOk result (λ r. BringsNoMore own.new r terms.now t) }
    ensures few { IfOk result (λ _. AddsNoMore terms.now (t ∷ []) own.old own.new) }
{
    let copies = transfer(alloc, terms, own, &[t], 0, 0)?;
    let all = copies.as_slice();
    Ok(all[0])
}
