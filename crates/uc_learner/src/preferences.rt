//! Which variables the search decides first, with which sign, and when it begins anew. No clause of the search speaks of it.

use crate::order::Order;
use std::alloc::{AllocError, Global};

#[derive(Drop)]
pub struct Preferences {
    /// The inputs.
    inputs: Vec<u32>,
    /// The value that each variable had last.
    phases: Vec<bool>,
    /// The place of each variable on the trail, where it has a value.
    places: Vec<usize>,
    /// The place of the first decision on the trail. Where there is none, above all places.
    root: usize,
    /// How often and how lately each variable took part in a conflict.
    order: Order,
    /// Whether any variable may be decided.
    is_free: bool,
    /// How many conflicts there were.
    seen: u64,
    /// How many there were since the search began anew.
    conflicts: u64,
    /// Counts up where the lowest bit of it is the number below.
    stage: u64,
    /// The number of Luby's sequence (1, 1, 2, 1, 1, 2, 4, ..) that times the unit is how many conflicts there may be.
    patience: u64,
}

/// How many conflicts the shortest wait for a new beginning takes.
const UNIT: u64 = 256;

/// In the first conflicts inputs alone are decided, which is best where a few of them decide all.
const FIRST: u64 = 32;

impl Preferences {
    pub fn new(alloc: Global) -> Preferences {
        Preferences {
            inputs: Vec::new(alloc),
            phases: Vec::new(alloc),
            places: Vec::new(alloc),
            root: usize::MAX,
            order: Order::new(alloc),
            is_free: false,
            seen: 0,
            conflicts: 0,
            stage: 1,
            patience: 1,
        }
    }

    /// Of variables, each of which is an input or not.
    pub fn of(alloc: Global, flags: &[bool]) -> Result<Preferences, AllocError> {
        let mut preferences = Preferences::new(alloc);
        for is_input in flags {
            preferences.add_variable(*is_input)?;
        }
        Ok(preferences)
    }

    pub fn add_variable(&mut self, is_input: bool) -> Result<(), AllocError> {
        if is_input && let Ok(number) = u32::try_from(self.phases.len()) {
            self.inputs.push(number)?;
        }
        self.phases.push(false)?;
        self.places.push(0)?;
        self.order.add_variable()
    }

    pub fn inputs(&self) -> &[u32] {
        self.inputs.as_slice()
    }

    /// Whether the best of all variables is decided, and not that of the inputs.
    pub fn is_free(&self) -> bool {
        self.is_free && self.seen >= FIRST
    }

    /// Whether any variable may be decided from now on.
    pub fn set_free(&mut self, is_free: bool) {
        self.is_free = is_free;
        self.conflicts = 0;
    }

    /// Whether it is time to begin anew.
    pub fn is_stuck(&self) -> bool {
        self.conflicts >= self.patience.saturating_mul(UNIT)
    }

    /// Goes to the next number of Luby's sequence.
    pub fn begin_anew(&mut self) {
        self.conflicts = 0;
        if self.stage & self.stage.wrapping_neg() == self.patience {
            self.stage = self.stage.wrapping_add(1);
            self.patience = 1;
        } else {
            self.patience = self.patience.saturating_mul(2);
        }
    }

    /// The value that the variable had last.
    pub fn phase(&self, variable: u32) -> bool {
        self.phases.get(variable as usize).copied().unwrap_or(false)
    }

    pub fn keep_phase(&mut self, variable: u32, value: bool) {
        if let Some(phase) = self.phases.get_mut(variable as usize) {
            *phase = value;
        }
    }

    /// For each variable its place on the trail. Of a variable without a value it tells nothing.
    pub fn places(&self) -> &[usize] {
        self.places.as_slice()
    }

    pub fn place(&self, variable: u32) -> usize {
        self.places.get(variable as usize).copied().unwrap_or(0)
    }

    /// How many steps stand before the first decision. Where there is none, more than there are steps.
    pub fn root(&self) -> usize {
        self.root
    }

    /// Notes where the variable stands on the trail.
    pub fn note_step(&mut self, variable: u32, place: usize, is_decision: bool) {
        if let Some(slot) = self.places.get_mut(variable as usize) {
            *slot = place;
        }
        if is_decision && place < self.root {
            self.root = place;
        }
    }

    /// Notes that so many steps stay.
    pub fn note_cut(&mut self, steps: usize) {
        if steps <= self.root {
            self.root = usize::MAX;
        }
    }

    pub fn score(&self, variable: u32) -> u64 {
        self.order.score(variable)
    }

    /// The variable with the highest score, among those that have no value.
    pub fn best(&self) -> Option<u32> {
        self.order.best()
    }

    /// Takes variables out of the order until the best one has no value.
    pub fn pass_over(&mut self, values: &[Option<bool>]) {
        for _variable in values {
            let Some(best) = self.order.best() else {
                return;
            };
            if values.get(best as usize).copied().flatten().is_none() {
                return;
            }
            self.order.take_best();
        }
    }

    /// Puts a variable that lost its value back into the order.
    pub fn put_back(&mut self, variable: u32) {
        self.order.put_back(variable);
    }

    /// Raises the scores of the variables that took part in a conflict. Later conflicts weigh more.
    pub fn raise(&mut self, variables: &[u32]) {
        for variable in variables {
            self.order.raise(*variable);
        }
        self.seen = self.seen.saturating_add(1);
        self.conflicts = self.conflicts.saturating_add(1);
        self.order.end_conflict();
    }
}
