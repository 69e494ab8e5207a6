//! What of statements is wanted.

ghost use Rattle.std.specs.Prelude.{◌≡◌, ◌∷◌, [], Some, IfOk};
ghost use Rattle.uc_syntax.specs.declared.statement.Stmt.TheVariants.{Assign as assign_statement};
ghost use Rattle.uc_flat_order.specs.Slices.{has, with_name, each_once, wants, if_wanted, assigned};

use std::alloc::{AllocError, Global};
use uc_items::{Items, beside};
use uc_syntax::{Expr, Place, Stmt, Target};

/// What writes one name, or what writes none of some names.
#[derive(Drop)]
pub enum Wanted {
    Only(u32),
    NoneOf(Items<u32>),
}

fn has(names: &[u32], name: u32) -> bool
    ensures { result ≡ has names.now name }
{
    names.iter().any(|other| name == *other)
}

/// The names with one more, where it is not there.
fn with_name(names: Items<u32>, name: u32) -> Result<Items<u32>, AllocError>
    ensures { IfOk result (λ all. all ≡ with_name names name) }
{
    let mut all = names;
    if !has(all.as_slice(), name) {
        all.push(name)?;
    }
    Ok(all)
}

/// Each name once, where it stands first.
#[tactic(auto, using(crate::proofs::Kept::once_begin, crate::proofs::Kept::once_end))]
pub(crate) fn each_once(alloc: Global, names: &[u32]) -> Result<Items<u32>, AllocError>
    ensures { IfOk result (λ xs. xs ≡ each_once [] names.now) }
{
    let mut all = Items::new(alloc);
    for name in names {
        all = with_name(all, *name)?;
    }
    Ok(all)
}

/// Whether what writes this name, or none, is wanted.
fn wants(wanted: &Wanted, written: Option<u32>) -> bool
    ensures { result ≡ wants wanted.now written }
{
    match wanted {
        Wanted::Only(name) => match written {
            Some(other) => other == *name,
            None => false,
        },
        Wanted::NoneOf(names) => match written {
            Some(other) => !has(names.as_slice(), other),
            None => true,
        },
    }
}

/// The statement, which writes this name, or none, if that is wanted.
#[tactic(auto, using(crate::proofs::Kept::unwanted, crate::proofs::Kept::is_wanted))]
pub(crate) fn if_wanted(
    alloc: Global,
    wanted: &Wanted,
    written: Option<u32>,
    statement: &Stmt,
) -> Result<Items<Stmt>, AllocError>
    ensures { IfOk result (λ ss. ss ≡ if_wanted (wants wanted.now written) statement.now) }
{
    if !wants(wanted, written) {
        return Ok(Items::new(alloc));
    }
    let copy = statement.copy(alloc)?;
    one(alloc, copy)
}

fn one(alloc: Global, statement: Stmt) -> Result<Items<Stmt>, AllocError>
    ensures { IfOk result (λ ss. ss ≡ statement ∷ []) }
{
    let mut all = Items::new(alloc);
    all.push(statement)?;
    Ok(all)
}

/// Those of the assignments of these targets, each with its source, that are wanted.
#[tactic(auto, using(crate::proofs::Kept::assigned_begin, crate::proofs::Kept::assigned_more, crate::proofs::Kept::assigned_end, crate::proofs::Kept::sources_end))]
pub(crate) fn assigned(
    alloc: Global,
    wanted: &Wanted,
    place: Place,
    targets: &[Target],
    sources: &[Expr],
) -> Result<Items<Stmt>, AllocError>
    ensures { IfOk result (λ ss. ss ≡ assigned wanted.now place targets.now sources.now) }
{
    let mut all = Items::new(alloc);
    for k in 0..targets.len() {
        if k >= sources.len() {
            return Ok(all);
        }
        let more = one_if_wanted(alloc, wanted, place, &targets[k], &sources[k])?;
        all.append(more)?;
    }
    Ok(all)
}

/// The assignment of one target, if it is wanted.
#[tactic(auto, using(crate::proofs::Kept::unwanted, crate::proofs::Kept::is_wanted))]
fn one_if_wanted(
    alloc: Global,
    wanted: &Wanted,
    place: Place,
    target: &Target,
    source: &Expr,
) -> Result<Items<Stmt>, AllocError>
    ensures { IfOk result (λ ss. ss ≡ if_wanted (wants wanted.now (Some target.now.name)) (assign_statement place (target.now ∷ []) (source.now ∷ []))) }
{
    if !wants(wanted, Some(target.name)) {
        return Ok(Items::new(alloc));
    }
    let assignment = one_assigned(alloc, place, target, source)?;
    one(alloc, assignment)
}

/// The assignment of one target.
fn one_assigned(
    alloc: Global,
    place: Place,
    target: &Target,
    source: &Expr,
) -> Result<Stmt, AllocError>
    ensures { IfOk result (λ s. s ≡ assign_statement place (target.now ∷ []) (source.now ∷ [])) }
{
    let target = target.copy(alloc)?;
    let mut targets = Items::new(alloc);
    targets.push(target)?;
    let (targets, source) = beside(targets, source.copy(alloc))?;
    let mut sources = Items::new(alloc);
    sources.push(source)?;
    Ok(Stmt::Assign(place, targets, sources))
}
