//! The proposal of a clause at a conflict: that of the first unique implication point, without the literals that follow from others.
//!
//! It is made without proof. What is wrong with it is found where it is accepted.

use crate::state::State;
use std::alloc::{AllocError, Global};
use std::mem;
use uc_circuit::Lit;

/// A clause that may follow from a conflict.
#[derive(Drop)]
pub struct Proposal {
    /// First the literal to assert, then of the others the one that became false last.
    pub clause: Vec<Lit>,
    /// The reasons that were resolved, in the order of the trail, and the false clause.
    pub hints: Vec<u32>,
    /// The variables that took part, but for those with a value before the first decision.
    pub variables: Vec<u32>,
}

/// What the walk back over the trail has found so far.
#[derive(Drop)]
struct Draft {
    /// How many steps stand before the first decision.
    root: usize,
    /// The place of the last decision.
    last: usize,
    /// The variables that the conflict needs.
    marked: Vec<bool>,
    /// How many of them got their values since the last decision and are not resolved.
    open: usize,
    /// Their literals that became false between the first decision and the last.
    lower: Vec<Lit>,
    /// Those with a value before the first decision.
    fixed: Vec<u32>,
    /// The others.
    variables: Vec<u32>,
    /// The places of the steps whose reasons were resolved.
    resolved: Vec<usize>,
}

impl Draft {
    fn new(alloc: Global, variables: usize, root: usize, last: usize) -> Result<Draft, AllocError> {
        Ok(Draft {
            root,
            last,
            marked: vec![in alloc; false; variables]?,
            open: 0,
            lower: Vec::new(alloc),
            fixed: Vec::new(alloc),
            variables: Vec::new(alloc),
            resolved: Vec::new(alloc),
        })
    }

    fn has(&self, variable: u32) -> bool {
        self.marked.get(variable as usize).copied().unwrap_or(false)
    }

    /// Marks the variable of a false literal, which stands at that place of the trail.
    fn mark(&mut self, literal: Lit, place: usize) -> Result<(), AllocError> {
        let Some(mark) = self.marked.get_mut(literal.var as usize) else {
            return Ok(());
        };
        if *mark {
            return Ok(());
        }
        *mark = true;
        if place < self.root {
            self.fixed.push(literal.var)?;
            return Ok(());
        }
        if place >= self.last {
            self.open = self.open.saturating_add(1);
        } else {
            self.lower.push(literal)?;
        }
        self.variables.push(literal.var)?;
        Ok(())
    }
}

impl State {
    /// The clause of the first unique implication point that may be decided. None where no decision was made.
    pub fn propose(&self, alloc: Global, conflict: u32) -> Result<Option<Proposal>, AllocError> {
        let Some(last) = self.last_decision() else {
            return Ok(None);
        };
        let mut draft = Draft::new(alloc, self.inputs.len(), self.preferences.root(), last)?;
        self.mark_clause(&mut draft, conflict)?;
        let Some(asserted) = self.implication_point(&mut draft)? else {
            return Ok(None);
        };
        let clause = self.shorter(alloc, &mut draft, asserted)?;
        self.explain_fixed(&mut draft)?;
        let hints = self.reasons_at(alloc, &mut draft.resolved, conflict)?;
        let variables = draft.variables;
        Ok(Some(Proposal {
            clause,
            hints,
            variables,
        }))
    }

    fn last_decision(&self) -> Option<usize> {
        let mut place = self.trail.len();
        for step in self.trail.iter().rev() {
            place = place.saturating_sub(1);
            if step.reason.is_none() {
                return Some(place);
            }
        }
        None
    }

    fn mark_clause(&self, draft: &mut Draft, number: u32) -> Result<(), AllocError> {
        let Some(clause) = self.clauses.get(number as usize) else {
            return Ok(());
        };
        for literal in clause.as_slice() {
            draft.mark(*literal, self.preferences.place(literal.var))?;
        }
        Ok(())
    }

    /// Resolves steps behind the last decision until one is left that may be decided. The answer is its negation.
    fn implication_point(&self, draft: &mut Draft) -> Result<Option<Lit>, AllocError> {
        let mut place = self.trail.len();
        for step in self.trail.iter().rev() {
            place = place.saturating_sub(1);
            if !draft.has(step.literal.var) {
                continue;
            }
            if draft.open <= 1 && self.may_decide(step.literal.var) {
                return Ok(Some(step.literal.negate()));
            }
            let Some(reason) = step.reason else {
                return Ok(None);
            };
            draft.open = draft.open.saturating_sub(1);
            draft.resolved.push(place)?;
            self.mark_clause(draft, reason)?;
        }
        Ok(None)
    }

    fn may_decide(&self, variable: u32) -> bool {
        self.inputs.get(variable as usize).copied().unwrap_or(false)
    }

    /// The asserted literal, and of the others those that do not follow from marked ones. That which became false last stands second.
    fn shorter(
        &self,
        alloc: Global,
        draft: &mut Draft,
        asserted: Lit,
    ) -> Result<Vec<Lit>, AllocError> {
        let mut clause = vec![in alloc; asserted]?;
        let mut highest = 0;
        for at in 0..draft.lower.len() {
            let Some(literal) = draft.lower.get(at).copied() else {
                return Ok(clause);
            };
            let place = self.preferences.place(literal.var);
            match self.dropped_by(draft, place) {
                Some(reason) => {
                    draft.resolved.push(place)?;
                    self.mark_clause(draft, reason)?;
                }
                None => add_literal(&mut clause, literal, place, &mut highest)?,
            }
        }
        Ok(clause)
    }

    /// The reason of a step, where each of its variables is marked or has a value since before the first decision.
    fn dropped_by(&self, draft: &Draft, place: usize) -> Option<u32> {
        let reason = self.trail.get(place)?.reason?;
        let clause = self.clauses.get(reason as usize)?;
        for literal in clause.as_slice() {
            if !draft.has(literal.var) && self.preferences.place(literal.var) >= draft.root {
                return None;
            }
        }
        Some(reason)
    }

    /// Resolves the variables that have a value since before the first decision.
    fn explain_fixed(&self, draft: &mut Draft) -> Result<(), AllocError> {
        for at in 0..self.inputs.len() {
            let Some(variable) = draft.fixed.get(at).copied() else {
                return Ok(());
            };
            let place = self.preferences.place(variable);
            let Some(reason) = self.reason_at(place) else {
                return Ok(());
            };
            draft.resolved.push(place)?;
            self.mark_clause(draft, reason)?;
        }
        Ok(())
    }

    fn reason_at(&self, place: usize) -> Option<u32> {
        self.trail.get(place)?.reason
    }

    /// The reasons of these steps in the order of the trail, and the false clause.
    fn reasons_at(
        &self,
        alloc: Global,
        places: &mut Vec<usize>,
        conflict: u32,
    ) -> Result<Vec<u32>, AllocError> {
        places.as_mut_slice().sort_unstable();
        let mut reasons = Vec::with_capacity(alloc, places.len().saturating_add(1))?;
        for place in places.as_slice() {
            if let Some(reason) = self.reason_at(*place) {
                reasons.push(reason)?;
            }
        }
        reasons.push(conflict)?;
        Ok(reasons)
    }
}

/// Adds a literal, at the second place where it became false after all others but the first.
fn add_literal(
    clause: &mut Vec<Lit>,
    literal: Lit,
    place: usize,
    highest: &mut usize,
) -> Result<(), AllocError> {
    let mut last = literal;
    if place >= *highest {
        *highest = place;
        if let Some(second) = clause.get_mut(1) {
            mem::swap(second, &mut last);
        }
    }
    clause.push(last)?;
    Ok(())
}
