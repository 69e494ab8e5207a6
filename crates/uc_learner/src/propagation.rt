//! Unit propagation: a literal that became false is looked up in the clauses that watch it.

ghost use Rattle.std.specs.Prelude.{◌≡◌, [], None, true, false, slice_index_or, Contains, IsTrue, IfSome};
ghost use Rattle.uc_rings.specs.Pairs.{HasTrue};
ghost use Rattle.uc_learner.specs.Sound.{Sound};
ghost use Rattle.uc_learner.specs.Guarded.{IsGuarded};
ghost use Rattle.uc_learner.specs.ClauseStates.{ConflictIs};
ghost use Rattle.uc_learner.specs.Moves.{Ready, Onward, Chosen, Decides, IsFreeInput, NoDecision, Descended};
ghost use Rattle.uc_learner.specs.Propagated.{Waiting, Gone, IsConflict, NarrowEnds, IsAtFalse, IsNext, Mended, Visited};

use crate::state::{State, Step};
use uc_circuit::{ClauseState, Lit, state_of};
use uc_rings::{Fate, fate_of, partner};

impl State {
    /// Makes every forced literal true, until a clause is false or nothing is forced. Takes no memory.
    pub fn propagate(&mut self) -> Option<u32>
        requires ready { Ready self.old }
        requires waiting { Waiting self.old }
        ensures onward { Onward self.old self.new }
        ensures conflict { ConflictIs self.new result }
        ensures undecided { NoDecision self.old → NoDecision self.new }
        ensures waiting { result ≡ None → Waiting self.new }
        ensures guarded { result ≡ None → IsGuarded self.new }
    {
        if let Some(conflict) = self.force_narrow() {
            return Some(conflict);
        }
        while self.head < self.trail.len() {
            let literal = self.trail[self.head].literal.negate();
            if let Some(conflict) = self.visit(literal) {
                return Some(conflict);
            }
            self.head += 1;
        }
        None
    }

    /// Makes the literals of the clauses true that have not two different ones.
    fn force_narrow(&mut self) -> Option<u32>
        requires ready { Ready self.old }
        ensures gone { Gone self.old self.new }
        ensures ends { NarrowEnds self.new result }
        ensures watches { self.new.watches ≡ self.old.watches }
    {
        for place in 0..self.watches.narrow.len() {
            let number = self.watches.narrow[place];
            if self.force(number) {
                return Some(number);
            }
        }
        None
    }

    /// Makes the literal true that a clause forces. The answer is whether the clause is false.
    fn force(&mut self, number: u32) -> bool
        requires ready { Ready self.old }
        requires narrow { Contains self.old.watches.narrow.items number }
        ensures gone { Gone self.old self.new }
        ensures conflict { result ≡ true → IsConflict self.new number }
        ensures forced { result ≡ false → HasTrue self.new.values.items (slice_index_or self.new.clauses.items number []) }
        ensures watches { self.new.watches ≡ self.old.watches }
    {
        match state_of(
            self.clauses[number as usize].as_slice(),
            self.values.as_slice(),
        ) {
            ClauseState::Falsified => true,
            ClauseState::Unit(literal) => {
                self.push(Step {
                    literal,
                    reason: Some(number),
                });
                false
            }
            ClauseState::Settled => false,
        }
    }

    /// Looks after the clauses that watch a literal that became false.
    fn visit(&mut self, literal: Lit) -> Option<u32>
        requires ready { Ready self.old }
        requires waiting { Waiting self.old }
        requires next { IsNext self.old literal }
        ensures { Visited self.old self.new result }
    {
        let mut at = self.watches.rings.first(literal);
        while let Some(slot) = at {
            at = self.watches.rings.after(slot);
            if self.mend(slot) {
                return Some(slot / 2);
            }
        }
        None
    }

    /// Looks after the clause of a slot whose literal is false. The answer is whether the clause is false.
    fn mend(&mut self, slot: u32) -> bool
        requires ready { Ready self.old }
        requires at_false { IsAtFalse self.old slot }
        ensures { Mended self.old slot self.new result }
    {
        let number = slot / 2;
        let Some(other) = self.watches.watched[partner(slot)] else {
            return false;
        };
        match fate_of(
            self.clauses[number as usize].as_slice(),
            other,
            self.values.as_slice(),
        ) {
            Fate::Stays => false,
            Fate::Moves(to) => {
                self.watches.move_slot(slot, to);
                false
            }
            Fate::Implies(literal) => {
                self.push(Step {
                    literal,
                    reason: Some(number),
                });
                false
            }
            Fate::Conflict => true,
        }
    }

    /// The first input without a value.
    pub fn free_input(&self) -> Option<u32>
        requires { Sound self.now }
        ensures { Chosen self.now result }
    {
        for input in 0..self.inputs.len() {
            if self.inputs[input] && self.values[input].is_none() {
                return Some(input as u32);
            }
        }
        None
    }

    /// The input without a value that took part in conflicts most and latest. No clause speaks of the preferences, so only the walk over all
    /// variables shows that no input is left.
    fn chosen_input(&self) -> Option<u32>
        requires { Sound self.now }
        ensures { Chosen self.now result }
    {
        match self.best_input() {
            Some(input) => Some(input),
            None => self.free_input(),
        }
    }

    /// Of the inputs that the preferences list, the one without a value that has the highest score. Where any variable may be decided, the
    /// best of all.
    fn best_input(&self) -> Option<u32>
        ensures { IfSome result (λ x. IsFreeInput self.now x) }
    {
        if self.preferences.is_free() {
            return match self.preferences.best() {
                Some(variable) if self.is_free(variable) => Some(variable),
                _ => None,
            };
        }
        let mut best = None;
        for input in self.preferences.inputs() {
            best = self.better(best, *input);
        }
        best
    }

    /// The input with the higher score, where the second is an input without a value.
    fn better(&self, best: Option<u32>, other: u32) -> Option<u32>
        requires { IfSome best (λ x. IsFreeInput self.now x) }
        ensures { IfSome result (λ x. IsFreeInput self.now x) }
    {
        if !self.is_free(other) {
            return best;
        }
        match best {
            Some(before) if self.preferences.score(other) <= self.preferences.score(before) => best,
            _ => Some(other),
        }
    }

    /// Whether it is an input without a value.
    fn is_free(&self, input: u32) -> bool
        ensures { IsTrue result → IsFreeInput self.now input }
    {
        let place = input as usize;
        place < self.inputs.len()
            && place < self.values.len()
            && self.inputs[place]
            && self.values[place].is_none()
    }

    /// The decision to make: the chosen input gets the value that it had last.
    fn decision(&self) -> Option<Step>
        requires { Sound self.now }
        ensures { Decides self.now result }
    {
        let Some(input) = self.chosen_input() else {
            return None;
        };
        let neg = !self.preferences.phase(input);
        Some(Step {
            literal: Lit { var: input, neg },
            reason: None,
        })
    }

    /// Decides and propagates until a clause is false or each input has a value.
    pub fn descend(&mut self) -> Option<u32>
        requires ready { Ready self.old }
        requires waiting { Waiting self.old }
        ensures { Descended self.old self.new result }
    {
        loop {
            if let Some(conflict) = self.propagate() {
                return Some(conflict);
            }
            let Some(step) = self.decision() else {
                return None;
            };
            self.push(step);
        }
    }
}
