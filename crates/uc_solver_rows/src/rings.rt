ghost use Rattle.std.specs.Prelude.{◌≡◌, [], ◌∷◌, IfOk};

use std::alloc::{AllocError, Global};
use std::process::Abort;
use std::test::Fail;
use uc_circuit::Lit;
use uc_rings::Rings;

const A: Lit = Lit { var: 0, neg: false };

const NOT_A: Lit = Lit { var: 0, neg: true };

const NOT_C: Lit = Lit { var: 2, neg: true };

/// Rings of four clauses over three variables, in which first slot 0 and then slot 3 was put at the front of the list of A.
fn chain(alloc: Global) -> Result<Rings, AllocError>
    ensures { IfOk result (λ r. r ≡ record { clauses = 4; lists = (3 ∷ 0 ∷ []) ∷ [] ∷ [] ∷ [] ∷ [] ∷ [] ∷ [] }) }
{
    let mut rings = Rings::new(alloc)?;
    rings.grow(4, 6)?;
    rings.link_front(A, 0);
    rings.link_front(A, 3);
    Ok(rings)
}

/// Slot 3 and then slot 0 stand in the list of A, and no slot in that of its negation.
fn check_chain(rt: &impl Abort, rings: &Rings)
    requires { rings.now.lists ≡ (3 ∷ 0 ∷ []) ∷ [] ∷ [] ∷ [] ∷ [] ∷ [] ∷ [] }
{
    check_slot(rt, rings.first(A), Some(3));
    check_slot(rt, rings.after(3), Some(0));
    check_slot(rt, rings.after(0), None);
    check_slot(rt, rings.first(NOT_A), None);
}

fn check_slot(rt: &impl Abort, found: Option<u32>, wanted: Option<u32>) {
    assert_eq!(rt; found, wanted);
}

#[test]
fn the_slot_linked_last_comes_first(rt: HostRuntime) -> Result<(), Fail> {
    check_chain(&rt, &chain(rt.alloc())?);
    Ok(())
}

#[test]
fn the_last_slot_is_taken_out_and_the_other_stands_alone(rt: HostRuntime) -> Result<(), Fail> {
    let mut rings = chain(rt.alloc())?;
    rings.unlink(0);
    check_slot(&rt, rings.first(A), Some(3));
    check_slot(&rt, rings.after(3), None);
    Ok(())
}

#[test]
fn the_first_slot_is_taken_out_and_linked_to_another_literal(rt: HostRuntime) -> Result<(), Fail> {
    let mut rings = chain(rt.alloc())?;
    rings.unlink(3);
    rings.link_front(NOT_C, 3);
    check_slot(&rt, rings.first(A), Some(0));
    check_slot(&rt, rings.after(0), None);
    check_slot(&rt, rings.first(NOT_C), Some(3));
    check_slot(&rt, rings.after(3), None);
    Ok(())
}

/// The same rings, grown to eight clauses.
fn grown_chain(alloc: Global) -> Result<Rings, AllocError>
    ensures { IfOk result (λ r. r ≡ record { clauses = 8; lists = (3 ∷ 0 ∷ []) ∷ [] ∷ [] ∷ [] ∷ [] ∷ [] ∷ [] }) }
{
    let mut rings = chain(alloc)?;
    rings.grow(8, 6)?;
    Ok(rings)
}

#[test]
fn growing_keeps_a_linked_list(rt: HostRuntime) -> Result<(), Fail> {
    check_chain(&rt, &grown_chain(rt.alloc())?);
    Ok(())
}
