//! The walk over code.

ghost use Rattle.std.specs.Prelude.{◌≡◌, IfOk};
ghost use Rattle.std.specs.List.{flat_map};
ghost use Rattle.uc_meaning.specs.Code.{else_block};
ghost use Rattle.uc_flat_order.specs.declared.wanted.Wanted.TheVariants.{Only, NoneOf};
ghost use Rattle.uc_flat_order.specs.Slices.{kept, bodies_in, each_wanted, slices, all_slices};

use crate::branches::{as_case, as_if, kept_branches};
use crate::names::names_written;
use crate::wanted::{Wanted, assigned, each_once, if_wanted};
use std::alloc::{AllocError, Global};
use uc_items::Items;
use uc_syntax::{Arm, Stmt};

/// The slices of code, in its order: of each statement, for each name that it writes, what writes this name, in copies of the conditionals
/// around it that have nothing else; and then what writes none. An assignment of several targets is one for each. Each statement is walked
/// over once for each name that it writes.
#[tactic(auto, using(uc_syntax::proofs::Added::added_begin, uc_syntax::proofs::Added::added_more, uc_syntax::proofs::Added::added_end))]
pub fn all_slices(alloc: Global, code: &[Stmt]) -> Result<Items<Stmt>, AllocError>
    ensures { IfOk result (λ ss. ss ≡ all_slices code.now) }
{
    let mut all = Items::new(alloc);
    for statement in code {
        let more = slices(alloc, statement)?;
        all.append(more)?;
    }
    Ok(all)
}

#[tactic(auto, using(crate::proofs::Kept::slices_end))]
fn slices(alloc: Global, statement: &Stmt) -> Result<Items<Stmt>, AllocError>
    ensures { IfOk result (λ ss. ss ≡ slices statement.now) }
{
    let written = names_written(alloc, statement)?;
    let names = each_once(alloc, written.as_slice())?;
    let all = sliced(alloc, statement, names)?;
    Ok(all)
}

/// What writes each of these names, and then what writes none of them.
fn sliced(alloc: Global, statement: &Stmt, names: Items<u32>) -> Result<Items<Stmt>, AllocError>
    ensures { IfOk result (λ ss. ss ≡ flat_map (λ w. kept w statement.now) (each_wanted names)) }
{
    let mut all = each_slice(alloc, statement, names.as_slice())?;
    let last = rest_of(alloc, statement, names)?;
    all.append(last)?;
    Ok(all)
}

fn rest_of(alloc: Global, statement: &Stmt, names: Items<u32>) -> Result<Items<Stmt>, AllocError>
    ensures { IfOk result (λ ss. ss ≡ kept (NoneOf names) statement.now) }
{
    let wanted = Wanted::NoneOf(names);
    kept(alloc, &wanted, statement)
}

fn slice_of(alloc: Global, statement: &Stmt, name: u32) -> Result<Items<Stmt>, AllocError>
    ensures { IfOk result (λ ss. ss ≡ kept (Only name) statement.now) }
{
    let wanted = Wanted::Only(name);
    kept(alloc, &wanted, statement)
}

/// What writes each of these names.
#[tactic(auto, using(uc_syntax::proofs::Added::added_begin, uc_syntax::proofs::Added::added_more, uc_syntax::proofs::Added::added_end))]
fn each_slice(alloc: Global, statement: &Stmt, names: &[u32]) -> Result<Items<Stmt>, AllocError>
    ensures { IfOk result (λ ss. ss ≡ flat_map (λ x. kept (Only x) statement.now) names.now) }
{
    let mut all = Items::new(alloc);
    for name in names {
        let more = slice_of(alloc, statement, *name)?;
        all.append(more)?;
    }
    Ok(all)
}

#[cycle(kept_in)]
#[tactic(auto, using(uc_syntax::proofs::Added::added_begin, uc_syntax::proofs::Added::added_more, uc_syntax::proofs::Added::added_end))]
fn kept_in(alloc: Global, wanted: &Wanted, code: &[Stmt]) -> Result<Items<Stmt>, AllocError>
    ensures { IfOk result (λ ss. ss ≡ flat_map (kept wanted.now) code.now) }
{
    let mut all = Items::new(alloc);
    for statement in code {
        let more = kept(alloc, wanted, statement)?;
        all.append(more)?;
    }
    Ok(all)
}

/// What of a statement is wanted.
#[cycle(kept_in)]
fn kept(alloc: Global, wanted: &Wanted, statement: &Stmt) -> Result<Items<Stmt>, AllocError>
    ensures { IfOk result (λ ss. ss ≡ kept wanted.now statement.now) }
{
    match statement {
        Stmt::Block(_, block) => kept_in(alloc, wanted, block.as_slice()),
        Stmt::If(place, arms, otherwise) => {
            let last = kept_in_else(alloc, wanted, otherwise)?;
            let bodies = kept_bodies(alloc, wanted, arms.as_slice())?;
            let own = kept_branches(alloc, arms.as_slice(), bodies, last)?;
            as_if(alloc, *place, own)
        }
        Stmt::Case(place, arms, otherwise) => {
            let last = kept_in_else(alloc, wanted, otherwise)?;
            let bodies = kept_bodies(alloc, wanted, arms.as_slice())?;
            let own = kept_branches(alloc, arms.as_slice(), bodies, last)?;
            as_case(alloc, *place, own)
        }
        Stmt::Assign(place, targets, sources) => {
            assigned(
                alloc,
                wanted,
                *place,
                targets.as_slice(),
                sources.as_slice(),
            )
        }
        Stmt::Havoc(_, name, _) => if_wanted(alloc, wanted, Some(name.name), statement),
        Stmt::Local(..) => if_wanted(alloc, wanted, None, statement),
        Stmt::Skip(_) => if_wanted(alloc, wanted, None, statement),
        Stmt::Assert(..) => if_wanted(alloc, wanted, None, statement),
        Stmt::Assume(..) => if_wanted(alloc, wanted, None, statement),
        Stmt::For(..) => if_wanted(alloc, wanted, None, statement),
        Stmt::Call(..) => if_wanted(alloc, wanted, None, statement),
        Stmt::Next(..) => if_wanted(alloc, wanted, None, statement),
    }
}

/// What is wanted of each arm.
#[cycle(kept_in)]
fn kept_bodies(
    alloc: Global,
    wanted: &Wanted,
    arms: &[Arm<Stmt>],
) -> Result<Items<Items<Stmt>>, AllocError>
    ensures { IfOk result (λ bs. bs ≡ bodies_in (kept wanted.now) arms.now) }
{
    let mut all = Items::new(alloc);
    for arm in arms {
        let body = kept_in(alloc, wanted, arm.body.as_slice())?;
        all.push(body)?;
    }
    Ok(all)
}

/// What is wanted of what is run where no condition is true.
#[cycle(kept_in)]
fn kept_in_else(
    alloc: Global,
    wanted: &Wanted,
    otherwise: &Option<Items<Stmt>>,
) -> Result<Items<Stmt>, AllocError>
    ensures { IfOk result (λ ss. ss ≡ flat_map (kept wanted.now) (else_block otherwise.now)) }
{
    match otherwise {
        None => Ok(Items::new(alloc)),
        Some(block) => kept_in(alloc, wanted, block.as_slice()),
    }
}
