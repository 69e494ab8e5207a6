//! What a conflict teaches: the clause that is proposed where it passes the check of the log and that of the trail, else that of the
//! last decision.

ghost use Rattle.std.specs.Prelude.{◌≡◌, ◌<◌, [], length, slice_index_or, IfOk, IfSome, IsTrue};
ghost use Rattle.uc_circuit.specs.Values.{IsFalsified};
ghost use Rattle.uc_learner.specs.declared.state.State.{State};
ghost use Rattle.uc_learner.specs.Trail.{IsInput};
ghost use Rattle.uc_learner.specs.Sound.{Sound};
ghost use Rattle.uc_learner.specs.Teaching.{CanTeach};
ghost use Rattle.uc_learner.specs.Learns.{Learns};
ghost use Rattle.uc_learner.specs.Accepted.{FalsifiedAt, FirstDecision, FalsifiedBefore, RestFalsified, BehindSecond};

use crate::analysis::Analysis;
use crate::proposal::Proposal;
use crate::state::{State, Step};
use std::alloc::{AllocError, Global};
use uc_circuit::Lit;
use uc_log::is_learnt;

/// A clause with its hints in order.
#[derive(Drop)]
pub struct Lesson {
    /// The literals of the learnt clause. The first is asserted.
    pub kept: Vec<Lit>,
    pub hints: Vec<u32>,
    /// How much of the trail stays.
    pub target: usize,
    /// The variables that took part in the conflict.
    pub variables: Vec<u32>,
}

/// The place of the step that made the literal false, where the places tell it. They may be wrong.
fn falsified_at(trail: &[Step], places: &[usize], literal: Lit) -> Option<usize>
    ensures { IfSome result (λ p. FalsifiedAt trail.now literal p) }
{
    let place = *places.get(literal.var as usize)?;
    let step = trail.get(place)?;
    if step.literal == literal.negate() {
        Some(place)
    } else {
        None
    }
}

/// The first decision from that place on.
#[tactic(auto, using(crate::proofs::Accepting::none_more, crate::proofs::Accepting::first_decision))]
fn decision_from(trail: &[Step], from: usize) -> Option<usize>
    ensures { IfSome result (λ t. FirstDecision trail.now from t) }
{
    for place in from..trail.len() {
        let step = trail[place];
        match step.reason {
            None => return Some(place),
            Some(_) => {}
        }
    }
    None
}

/// Whether the literal was made false before that place.
#[tactic(auto, using(crate::proofs::Accepting::falsified_before))]
fn is_false_before(trail: &[Step], places: &[usize], literal: Lit, target: usize) -> bool
    ensures { IsTrue result → FalsifiedBefore trail.now target literal }
{
    match falsified_at(trail, places, literal) {
        Some(place) => place < target,
        None => false,
    }
}

/// Whether each literal but the first was made false before that place.
#[tactic(auto, using(crate::proofs::Accepting::rest_more))]
fn is_rest_false(trail: &[Step], places: &[usize], clause: &[Lit], target: usize) -> bool
    ensures { IsTrue result → RestFalsified trail.now target clause.now (length clause.now) }
{
    for place in 1..clause.len() {
        let literal = clause[place];
        if !is_false_before(trail, places, literal, target) {
            return false;
        }
    }
    true
}

/// Whether the literal's variable may be decided.
fn is_choice(choices: &[bool], literal: Lit) -> bool
    ensures { IsTrue result → IsInput choices.now literal }
{
    match choices.get(literal.var as usize) {
        Some(choice) => *choice,
        None => false,
    }
}

/// The place behind the second literal's, 0 where there is none.
fn from_second(trail: &[Step], places: &[usize], clause: &[Lit]) -> Option<usize>
    ensures { IfSome result (λ from. BehindSecond trail.now clause.now from) }
{
    let Some(second) = clause.get(1) else {
        return Some(0);
    };
    let place = falsified_at(trail, places, *second)?;
    Some(place + 1)
}

/// The decision at which the clause forces its first literal, where it does so at no decision before.
fn taught_at(trail: &[Step], places: &[usize], choices: &[bool], clause: &[Lit]) -> Option<usize>
    ensures { IfSome result (λ t. (s : State) → s.trail.items ≡ trail.now → s.inputs.items ≡ choices.now → Sound s → CanTeach s clause.now t) }
{
    let asserted = *clause.first()?;
    let place = falsified_at(trail, places, asserted)?;
    let from = from_second(trail, places, clause)?;
    let target = decision_from(trail, from)?;
    if target <= place
        && is_choice(choices, asserted)
        && is_rest_false(trail, places, clause, target)
    {
        Some(target)
    } else {
        None
    }
}

/// The marked variables.
fn listed(alloc: Global, marked: &[bool]) -> Result<Vec<u32>, AllocError> {
    let mut variables = Vec::new(alloc);
    for (number, is_marked) in marked.iter().enumerate() {
        if *is_marked && let Ok(variable) = u32::try_from(number) {
            variables.push(variable)?;
        }
    }
    Ok(variables)
}

impl State {
    /// What a conflict teaches.
    pub fn teach(&self, alloc: Global, conflict: u32) -> Result<Lesson, AllocError>
        requires sound { Sound self.now }
        requires inside { conflict < length self.now.clauses.items }
        requires conflict { IsFalsified self.now.values.items (slice_index_or self.now.clauses.items conflict []) }
        ensures { IfOk result (λ it. Learns self.now it.kept.items it.hints.items it.target) }
    {
        match self.accepted(alloc, conflict)? {
            Some(lesson) => Ok(lesson),
            None => self.decided(alloc, conflict),
        }
    }

    /// The clause that is proposed, where it is accepted.
    fn accepted(&self, alloc: Global, conflict: u32) -> Result<Option<Lesson>, AllocError>
        requires { Sound self.now }
        ensures { IfOk result (λ r. IfSome r (λ it. Learns self.now it.kept.items it.hints.items it.target)) }
    {
        let Some(proposal) = self.propose(alloc, conflict)? else {
            return Ok(None);
        };
        let Proposal {
            clause,
            hints,
            variables,
        } = proposal;
        let Some(target) = self.learnt_at(alloc, clause.as_slice(), hints.as_slice())? else {
            return Ok(None);
        };
        Ok(Some(Lesson {
            kept: clause,
            hints,
            target,
            variables,
        }))
    }

    /// How much of the trail stays where a proposed clause may be learnt.
    fn learnt_at(
        &self,
        alloc: Global,
        clause: &[Lit],
        hints: &[u32],
    ) -> Result<Option<usize>, AllocError>
        requires { Sound self.now }
        ensures { IfOk result (λ r. IfSome r (λ t. Learns self.now clause.now hints.now t)) }
    {
        let Some(target) = taught_at(
            self.trail.as_slice(),
            self.preferences.places(),
            self.inputs.as_slice(),
            clause,
        ) else {
            return Ok(None);
        };
        let mut values = vec![in alloc; None; self.inputs.len()]?;
        let mut steps = vec![in alloc; 0; hints.len()]?;
        if is_learnt(
            self.clauses.as_slice(),
            values.as_mut_slice(),
            steps.as_mut_slice(),
            clause,
            hints,
        ) {
            Ok(Some(target))
        } else {
            Ok(None)
        }
    }

    /// The clause of the last decision.
    fn decided(&self, alloc: Global, conflict: u32) -> Result<Lesson, AllocError>
        requires sound { Sound self.now }
        requires inside { conflict < length self.now.clauses.items }
        requires conflict { IsFalsified self.now.values.items (slice_index_or self.now.clauses.items conflict []) }
        ensures { IfOk result (λ it. Learns self.now it.kept.items it.hints.items it.target) }
    {
        let Analysis {
            marked,
            hints,
            kept,
            target,
            ..
        } = self.analyze(alloc, conflict)?;
        let variables = listed(alloc, marked.as_slice())?;
        Ok(Lesson {
            kept,
            hints,
            target,
            variables,
        })
    }
}
