//! The analysis of a conflict: a walk back over the trail that resolves the false clause with the reasons of its literals.

ghost use Rattle.std.specs.Prelude.{◌≡◌, ◌+◌, ◌<◌, ℕ, List, [], ◌∷◌, length, reverse, true, false, All, slice_index_or, IfOk};
ghost use Rattle.uc_learner.specs.Sound.{Sound};
ghost use Rattle.uc_circuit.specs.Values.{IsFalsified};
ghost use Rattle.uc_learner.specs.Learns.{Learns};
ghost use Rattle.uc_learner.specs.Walked.{Walked};

use crate::state::{State, Step};
use std::alloc::{AllocError, Global};
use uc_circuit::Lit;

/// What the walk has found so far.
#[derive(Drop)]
pub struct Analysis {
    /// The variables that the conflict needs.
    pub marked: Vec<bool>,
    /// The reasons that were resolved, the last one first.
    pub hints: Vec<u32>,
    /// The literals of the learnt clause.
    pub kept: Vec<Lit>,
    /// How much of the trail stays.
    pub target: usize,
    /// How many steps stand before the first decision.
    root: usize,
    /// The variables of these steps.
    fixed: Vec<bool>,
}

impl Analysis {
    /// Whether each of the literals is needed already, or was made true or false before the first decision.
    fn covers(&self, clause: &[Lit]) -> bool {
        clause.iter().all(|literal| has(&self.marked, literal.var) || has(&self.fixed, literal.var))
    }
}

fn has(variables: &Vec<bool>, variable: u32) -> bool {
    variables.get(variable as usize).copied().unwrap_or(false)
}

/// Marks the variables of a clause.
fn mark(marked: &mut Vec<bool>, clause: &[Lit])
    requires { All (λ l. l.var < length marked.old.items) clause.now }
    ensures same_length { length marked.new.items ≡ length marked.old.items }
    ensures grows { (x : ℕ) → slice_index_or marked.old.items x false ≡ true → slice_index_or marked.new.items x false ≡ true }
    ensures all { All (λ l. slice_index_or marked.new.items l.var false ≡ true) clause.now }
{
    for literal in clause {
        marked[literal.var as usize] = true;
    }
}

impl State {
    /// Whether the walk resolves with the reason of a step that is needed, or else keeps its literal. It resolves above the
    /// last decision and before the first one, and where that adds no literal to the clause.
    fn is_resolved(&self, analysis: &Analysis, at: usize, reason: u32) -> bool
        ensures { result ≡ false → 0 < length analysis.now.kept.items }
    {
        if analysis.kept.is_empty() || at < analysis.root {
            return true;
        }
        match self.clauses.get(reason as usize) {
            None => false,
            Some(clause) => analysis.covers(clause.as_slice()),
        }
    }

    /// How many steps stand before the first decision.
    fn root(&self) -> usize {
        for at in 0..self.trail.len() {
            if self.trail[at].reason.is_none() {
                return at;
            }
        }
        self.trail.len()
    }

    /// The variables of the first steps.
    fn variables_of(&self, alloc: Global, steps: usize) -> Result<Vec<bool>, AllocError> {
        let mut variables = vec![in alloc; false; self.inputs.len()]?;
        for step in self.trail.iter().take(steps) {
            if let Some(variable) = variables.get_mut(step.literal.var as usize) {
                *variable = true;
            }
        }
        Ok(variables)
    }

    /// Walks over the step at a place, the walk having come down to the place behind it.
    fn walk(&self, analysis: &mut Analysis, at: usize) -> Result<(), AllocError>
        requires sound { Sound self.now }
        requires inside { at < length self.now.trail.items }
        requires before { Walked self.now (at + 1) analysis.old.marked.items analysis.old.kept.items (reverse analysis.old.hints.items) analysis.old.target }
        ensures { IfOk result (λ _. Walked self.now at analysis.new.marked.items analysis.new.kept.items (reverse analysis.new.hints.items) analysis.new.target) }
    {
        let step = self.trail[at];
        let needed = analysis.marked[step.literal.var as usize];
        match step.reason {
            Some(number) if self.is_resolved(analysis, at, number) => {
                if needed {
                    mark(
                        &mut analysis.marked,
                        self.clauses[number as usize].as_slice(),
                    );
                    analysis.hints.push(number)?;
                }
            }
            Some(_) => {
                if needed {
                    analysis.kept.push(step.literal.negate())?;
                }
            }
            None => {
                if analysis.kept.is_empty() {
                    analysis.target = at;
                    analysis.kept.push(step.literal.negate())?;
                } else if needed {
                    analysis.kept.push(step.literal.negate())?;
                } else if analysis.kept.len() == 1 {
                    analysis.target = at;
                }
            }
        }
        Ok(())
    }

    /// The clause that a conflict teaches, with its hints in order.
    pub fn analyze(&self, alloc: Global, conflict: u32) -> Result<Analysis, AllocError>
        requires sound { Sound self.now }
        requires inside { conflict < length self.now.clauses.items }
        requires conflict { IsFalsified self.now.values.items (slice_index_or self.now.clauses.items conflict []) }
        ensures { IfOk result (λ a. Learns self.now a.kept.items a.hints.items a.target) }
    {
        let mut marked = vec![in alloc; false; self.inputs.len()]?;
        mark(&mut marked, self.clauses[conflict as usize].as_slice());
        let hints = vec![in alloc; conflict]?;
        let root = self.root();
        let fixed = self.variables_of(alloc, root)?;
        let mut analysis = Analysis {
            marked,
            hints,
            kept: Vec::new(alloc),
            target: 0,
            root,
            fixed,
        };
        let mut at = self.trail.len();
        while at > 0 {
            at -= 1;
            self.walk(&mut analysis, at)?;
        }
        analysis.hints.reverse();
        Ok(analysis)
    }
}
