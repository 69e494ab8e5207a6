//! The search's state: its clauses, and the literals that were made true.

ghost use Rattle.std.specs.Prelude.{◌≡◌, ◌<◌, ◌≤◌, ◌+◌, ◌^◌, ◌++◌, ◌∷◌, [], length, vec_capacity, OnOk, IfOk};
ghost use Rattle.uc_circuit.specs.Circuits.{IsOrdered};
ghost use Rattle.uc_log.specs.Entries.{Known, known_of, add};
ghost use Rattle.uc_log.specs.Refutes.{unvalued};
ghost use Rattle.uc_learner.specs.Learners.{IsOver, input_flags};
ghost use Rattle.uc_learner.specs.Answered.{Holds};

use crate::preferences::Preferences;
use std::alloc::{AllocError, Global};
use uc_circuit::{Circuit, Clause, Lit};
use uc_log::{Entry, Problem};
use uc_rings::Watches;

/// One literal that was made true: decided, or implied by the clause of that number.
#[derive(Clone, Copy)]
pub struct Step {
    pub literal: Lit,
    pub reason: Option<u32>,
}

/// What the search knows: its clauses, and what it has made true.
#[derive(Drop)]
pub struct State {
    /// The clauses by number.
    pub clauses: Vec<Clause>,
    /// For each variable, whether it is an input.
    pub inputs: Vec<bool>,
    /// The values of the variables after the trail.
    pub values: Vec<Option<bool>>,
    /// The literals that were made true, in order. There is room for one of each variable.
    pub trail: Vec<Step>,
    pub preferences: Preferences,
    /// Which literals each clause watches.
    pub watches: Watches,
    /// How many steps of the trail were looked at.
    pub head: usize,
}

impl State {
    ghost use Rattle.uc_learner.specs.Sound.{Sound, Whole};
    ghost use Rattle.uc_learner.specs.Moves.{Pushed, Cut};
    ghost use Rattle.uc_learner.specs.Rewatched.{AreWatchedTo, Rewatched};
    ghost use Rattle.uc_learner.specs.Added.{Added, VariableAdded};

    /// A state without variables and clauses.
    pub fn empty(alloc: Global) -> Result<State, AllocError>
        ensures { IfOk result (λ s. Whole s) }
    {
        Ok(State {
            clauses: Vec::new(alloc),
            inputs: Vec::new(alloc),
            values: Vec::new(alloc),
            trail: Vec::new(alloc),
            preferences: Preferences::new(alloc),
            watches: Watches::new(alloc)?,
            head: 0,
        })
    }

    /// The state of a problem, in which no variable has a value.
    pub fn of(alloc: Global, p: &Problem) -> Result<State, AllocError>
        ensures whole { IfOk result (λ s. Whole s) }
        ensures holds { IfOk result (λ s. Holds s (known_of p.now)) }
    {
        let circuit = p.circuit();
        let clauses = p.clauses(alloc)?;
        if clauses.len() > u32::MAX as usize {
            return Err(AllocError);
        }
        let inputs = input_flags(alloc, circuit)?;
        let preferences = Preferences::of(alloc, inputs.as_slice())?;
        let mut state = State {
            clauses,
            inputs,
            values: no_values(alloc, circuit.len() as usize)?,
            trail: Vec::with_capacity(alloc, circuit.len() as usize)?,
            preferences,
            watches: Watches::new(alloc)?,
            head: 0,
        };
        state.watch_from(0)?;
        Ok(state)
    }

    /// Makes the clauses from that number on watch their literals.
    pub fn watch_from(&mut self, first: usize) -> Result<(), AllocError>
        requires sound { Sound self.old }
        requires inside { first ≤ length self.old.clauses.items }
        requires watched { AreWatchedTo self.old first }
        ensures { OnOk result (Rewatched self.old self.new) }
    {
        self.watches.grow(self.inputs.len())?;
        for number in first..self.clauses.len() {
            self.watches.add(self.clauses[number].as_slice())?;
        }
        Ok(())
    }

    /// Takes over the variable and the clauses of an entry. Takes back all steps.
    pub fn add(&mut self, entry: &Entry) -> Result<(), AllocError>
        requires whole { Whole self.old }
        requires over { IsOver (length self.old.inputs.items) entry.now }
        ensures whole { OnOk result (Whole self.new) }
        ensures holds { OnOk result ((k : Known) → Holds self.old k → Holds self.new (add k entry.now)) }
    {
        let first = self.clauses.len();
        self.take_over(entry)?;
        self.watch_from(first)?;
        Ok(())
    }

    /// Takes over the variable and the clauses of an entry, which are not watched yet.
    fn take_over(&mut self, entry: &Entry) -> Result<(), AllocError>
        requires sound { Sound self.old }
        requires over { IsOver (length self.old.inputs.items) entry.now }
        ensures { OnOk result (Added self.old entry.now self.new) }
    {
        self.cut(0);
        let mut clauses = entry.clauses(*self.clauses.allocator(), self.inputs.len() as u32)?;
        if clauses.len() + self.clauses.len() > u32::MAX as usize {
            return Err(AllocError);
        }
        self.clauses.append(&mut clauses)?;
        match entry {
            Entry::Gate(_) => self.add_variable(false),
            Entry::Atom(_) => self.add_variable(true),
            Entry::Learnt(..) => Ok(()),
        }
    }

    fn add_variable(&mut self, is_input: bool) -> Result<(), AllocError>
        requires { length self.old.inputs.items < 2 ^ 32 }
        ensures { OnOk result (VariableAdded self.old is_input self.new) }
    {
        if self.inputs.len() >= u32::MAX as usize {
            return Err(AllocError);
        }
        self.inputs.push(is_input)?;
        self.values.push(None)?;
        self.preferences.add_variable(is_input)?;
        self.trail.reserve(self.inputs.len())
    }

    /// Makes a literal true.
    pub fn push(&mut self, step: Step)
        requires inside { step.literal.var < length self.old.values.items }
        requires room { length self.old.trail.items < vec_capacity self.old.trail }
        ensures { Pushed self.old step self.new }
    {
        let place = self.trail.len();
        self.trail.push_reserved(step);
        self.values[step.literal.var as usize] = Some(!step.literal.neg);
        self.preferences
            .note_step(step.literal.var, place, step.reason.is_none());
        self.preferences.pass_over(self.values.as_slice());
    }

    /// Takes back all but the first steps, which count as looked at.
    pub fn cut(&mut self, target: usize)
        requires sound { Sound self.old }
        requires inside { target ≤ length self.old.trail.items }
        ensures cut { Cut self.old target self.new }
        ensures head { self.new.head ≡ target }
    {
        while self.trail.len() > target {
            if let Some(step) = self.trail.pop() {
                self.values[step.literal.var as usize] = None;
                self.preferences
                    .keep_phase(step.literal.var, !step.literal.neg);
                self.preferences.put_back(step.literal.var);
            }
        }
        self.head = self.trail.len();
        self.preferences.note_cut(target);
    }
}

/// For each variable of a circuit, whether it is an input.
pub fn input_flags(alloc: Global, circuit: &Circuit) -> Result<Vec<bool>, AllocError>
    ensures { IfOk result (λ f. f.items ≡ input_flags circuit.now) }
{
    let mut flags = Vec::with_capacity(alloc, circuit.len() as usize)?;
    for number in 0..circuit.len() {
        flags.push(circuit.gate(number).is_none())?;
    }
    Ok(flags)
}

fn no_values(alloc: Global, count: usize) -> Result<Vec<Option<bool>>, AllocError>
    ensures { IfOk result (λ v. v.items ≡ unvalued count) }
{
    let mut values = Vec::with_capacity(alloc, count)?;
    for _number in 0..count {
        values.push(None)?;
    }
    Ok(values)
}
