//! Conditionals with what is kept of their branches.

ghost use Rattle.std.specs.Prelude.{◌≡◌, [], ◌∷◌, map, IfOk};
ghost use Rattle.std.specs.Option.{option_map, option_to_list};
ghost use Rattle.uc_flat_order.specs.Slices.{up_to_last, with_bodies, branches, if_of, case_of};

use std::alloc::{AllocError, Global};
use uc_items::{Items, at, beside};
use uc_syntax::{Arm, Place, Stmt};

/// The arms of a conditional, and what is run where no condition is true.
#[derive(Drop)]
pub struct Branches {
    pub arms: Items<Arm<Stmt>>,
    pub otherwise: Option<Items<Stmt>>,
}

/// The lists up to the last that is not empty.
#[tactic(auto, using(crate::proofs::Kept::last_empty, crate::proofs::Kept::last_full))]
fn up_to_last(bodies: Items<Items<Stmt>>) -> Result<Items<Items<Stmt>>, AllocError>
    ensures { IfOk result (λ bs. bs ≡ up_to_last bodies) }
{
    let mut all = bodies;
    while let Some(last) = all.pop() {
        if !last.is_empty() {
            all.push(last)?;
            return Ok(all);
        }
    }
    Ok(all)
}

/// The arms with other statements, as many as there are of both.
#[tactic(auto, using(crate::proofs::Kept::bodies_begin, crate::proofs::Kept::bodies_more, crate::proofs::Kept::bodies_end, crate::proofs::Kept::arms_end))]
fn with_bodies(
    alloc: Global,
    arms: &[Arm<Stmt>],
    bodies: Items<Items<Stmt>>,
) -> Result<Items<Arm<Stmt>>, AllocError>
    ensures { IfOk result (λ all. all ≡ with_bodies arms.now bodies) }
{
    let mut all = Items::new(alloc);
    for body in bodies.into_vec() {
        let Some(arm) = at(arms, all.len()) else {
            return Ok(all);
        };
        let next = with_body(alloc, arm, body)?;
        all.push(next)?;
    }
    Ok(all)
}

fn with_body(alloc: Global, arm: &Arm<Stmt>, body: Items<Stmt>) -> Result<Arm<Stmt>, AllocError>
    ensures { IfOk result (λ a. a ≡ record { condition = arm.now.condition; body = body }) }
{
    let (body, condition) = beside(body, arm.condition.copy(alloc))?;
    Ok(Arm { condition, body })
}

/// The branches with these statements in the arms and in the last branch, up to the last statement; nothing where there is none.
pub(crate) fn kept_branches(
    alloc: Global,
    arms: &[Arm<Stmt>],
    bodies: Items<Items<Stmt>>,
    otherwise: Items<Stmt>,
) -> Result<Option<Branches>, AllocError>
    ensures { IfOk result (λ b. b ≡ branches arms.now bodies otherwise) }
{
    if !otherwise.is_empty() {
        let (otherwise, arms) = beside(otherwise, with_bodies(alloc, arms, bodies))?;
        return Ok(Some(Branches {
            arms,
            otherwise: Some(otherwise),
        }));
    }
    let bodies = up_to_last(bodies)?;
    if bodies.is_empty() {
        return Ok(None);
    }
    let arms = with_bodies(alloc, arms, bodies)?;
    Ok(Some(Branches {
        arms,
        otherwise: None,
    }))
}

/// The `if` with these branches, where there are any.
pub(crate) fn as_if(
    alloc: Global,
    place: Place,
    branches: Option<Branches>,
) -> Result<Items<Stmt>, AllocError>
    ensures { IfOk result (λ ss. ss ≡ option_to_list (option_map (if_of place) branches)) }
{
    let mut all = Items::new(alloc);
    if let Some(own) = branches {
        all.push(Stmt::If(place, own.arms, own.otherwise))?;
    }
    Ok(all)
}

/// The `case` with these branches, where there are any.
pub(crate) fn as_case(
    alloc: Global,
    place: Place,
    branches: Option<Branches>,
) -> Result<Items<Stmt>, AllocError>
    ensures { IfOk result (λ ss. ss ≡ option_to_list (option_map (case_of place) branches)) }
{
    let mut all = Items::new(alloc);
    if let Some(own) = branches {
        all.push(Stmt::Case(place, own.arms, own.otherwise))?;
    }
    Ok(all)
}
