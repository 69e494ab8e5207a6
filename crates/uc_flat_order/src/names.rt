//! The names that statements write.

ghost use Rattle.std.specs.Prelude.{◌≡◌, [], ◌∷◌, ◌++◌, map, IfOk};
ghost use Rattle.std.specs.List.{flat_map};
ghost use Rattle.uc_meaning.specs.Code.{else_block};
ghost use Rattle.uc_flat_order.specs.Slices.{names_written};

use std::alloc::{AllocError, Global};
use uc_items::Items;
use uc_syntax::{Arm, Stmt, Target};

#[cycle(names_in)]
#[tactic(auto, using(uc_syntax::proofs::Added::added_begin, uc_syntax::proofs::Added::added_more, uc_syntax::proofs::Added::added_end))]
fn names_in(alloc: Global, code: &[Stmt]) -> Result<Items<u32>, AllocError>
    ensures { IfOk result (λ xs. xs ≡ flat_map names_written code.now) }
{
    let mut all = Items::new(alloc);
    for statement in code {
        let more = names_written(alloc, statement)?;
        all.append(more)?;
    }
    Ok(all)
}

/// The names that a statement writes on any way, in the order of the text.
#[cycle(names_in)]
pub(crate) fn names_written(alloc: Global, statement: &Stmt) -> Result<Items<u32>, AllocError>
    ensures { IfOk result (λ xs. xs ≡ names_written statement.now) }
{
    match statement {
        Stmt::Block(_, block) => names_in(alloc, block.as_slice()),
        Stmt::If(_, arms, otherwise) => {
            let last = names_in_else(alloc, otherwise)?;
            let first = names_in_arms(alloc, arms.as_slice())?;
            joined(first, last)
        }
        Stmt::Case(_, arms, otherwise) => {
            let last = names_in_else(alloc, otherwise)?;
            let first = names_in_arms(alloc, arms.as_slice())?;
            joined(first, last)
        }
        Stmt::Havoc(_, name, _) => one(alloc, name.name),
        Stmt::Assign(_, targets, _) => target_names(alloc, targets.as_slice()),
        Stmt::Local(..) => Ok(Items::new(alloc)),
        Stmt::Skip(_) => Ok(Items::new(alloc)),
        Stmt::Assert(..) => Ok(Items::new(alloc)),
        Stmt::Assume(..) => Ok(Items::new(alloc)),
        Stmt::For(..) => Ok(Items::new(alloc)),
        Stmt::Call(..) => Ok(Items::new(alloc)),
        Stmt::Next(..) => Ok(Items::new(alloc)),
    }
}

fn one(alloc: Global, name: u32) -> Result<Items<u32>, AllocError>
    ensures { IfOk result (λ xs. xs ≡ name ∷ []) }
{
    let mut all = Items::new(alloc);
    all.push(name)?;
    Ok(all)
}

fn target_names(alloc: Global, targets: &[Target]) -> Result<Items<u32>, AllocError>
    ensures { IfOk result (λ xs. xs ≡ map (λ t. t.name) targets.now) }
{
    let mut all = Items::new(alloc);
    for target in targets {
        all.push(target.name)?;
    }
    Ok(all)
}

fn joined(first: Items<u32>, last: Items<u32>) -> Result<Items<u32>, AllocError>
    ensures { IfOk result (λ xs. xs ≡ first ++ last) }
{
    let mut all = first;
    all.append(last)?;
    Ok(all)
}

#[cycle(names_in)]
#[tactic(auto, using(uc_syntax::proofs::Added::added_begin, uc_syntax::proofs::Added::added_more, uc_syntax::proofs::Added::added_end))]
fn names_in_arms(alloc: Global, arms: &[Arm<Stmt>]) -> Result<Items<u32>, AllocError>
    ensures { IfOk result (λ xs. xs ≡ flat_map (λ a. flat_map names_written a.body) arms.now) }
{
    let mut all = Items::new(alloc);
    for arm in arms {
        let more = names_in(alloc, arm.body.as_slice())?;
        all.append(more)?;
    }
    Ok(all)
}

#[cycle(names_in)]
fn names_in_else(alloc: Global, otherwise: &Option<Items<Stmt>>) -> Result<Items<u32>, AllocError>
    ensures { IfOk result (λ xs. xs ≡ flat_map names_written (else_block otherwise.now)) }
{
    match otherwise {
        None => Ok(Items::new(alloc)),
        Some(block) => names_in(alloc, block.as_slice()),
    }
}
