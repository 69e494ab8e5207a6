//! The plain search, which looks at all clauses at each step and learns none: what the learner answers is compared with it.

use std::alloc::{AllocError, Global};
use uc_circuit::{Circuit, Clause, Lit};
use uc_log::Problem;

/// How many steps it makes at most.
const MOST: u64 = 1 << 40;

/// A literal that was made true. It stays to be turned where it was decided and not yet turned.
#[derive(Clone, Copy)]
struct Choice {
    literal: Lit,
    is_open: bool,
}

/// What a clause asks for, or what a look at all clauses found.
#[derive(Clone, Copy)]
enum Look {
    /// A clause is false.
    Conflict,
    /// A clause forces the literal.
    Forced(Lit),
    Settled,
}

#[derive(Drop)]
struct Scan {
    clauses: Vec<Clause>,
    inputs: Vec<Lit>,
    values: Vec<Option<bool>>,
    trail: Vec<Choice>,
}

/// Whether values make each clause of the problem true, None where the steps run out.
pub(crate) fn has_candidate(alloc: Global, p: &Problem) -> Result<Option<bool>, AllocError> {
    let mut scan = Scan {
        clauses: p.clauses(alloc)?,
        inputs: inputs_of(alloc, p.circuit())?,
        values: vec![in alloc; None; p.circuit().len() as usize]?,
        trail: Vec::new(alloc),
    };
    for _step in 0..MOST {
        match scan.look()? {
            Look::Forced(_) => {}
            Look::Conflict => {
                if !scan.turn()? {
                    return Ok(Some(false));
                }
            }
            Look::Settled => match scan.open_input() {
                Some(literal) => scan.set(literal, true)?,
                None => return Ok(Some(true)),
            },
        }
    }
    Ok(None)
}

fn inputs_of(alloc: Global, circuit: &Circuit) -> Result<Vec<Lit>, AllocError> {
    let mut inputs = Vec::new(alloc);
    for number in 0..circuit.len() {
        if circuit.gate(number).is_none() {
            inputs.push(Lit::positive(number))?;
        }
    }
    Ok(inputs)
}

impl Scan {
    fn value(&self, literal: Lit) -> Option<bool> {
        let value = self.values.get(literal.var as usize).copied().flatten()?;
        Some(value != literal.neg)
    }

    /// Looks at each clause once, and makes each literal true that is forced.
    fn look(&mut self) -> Result<Look, AllocError> {
        let mut found = Look::Settled;
        for place in 0..self.clauses.len() {
            match self.look_at(place) {
                Look::Conflict => return Ok(Look::Conflict),
                Look::Forced(literal) => {
                    self.set(literal, false)?;
                    found = Look::Forced(literal);
                }
                Look::Settled => {}
            }
        }
        Ok(found)
    }

    fn look_at(&self, place: usize) -> Look {
        let mut open: Option<Lit> = None;
        let Some(clause) = self.clauses.get(place) else {
            return Look::Settled;
        };
        for literal in clause.as_slice() {
            match self.value(*literal) {
                Some(true) => return Look::Settled,
                Some(false) => {}
                None => match open {
                    Some(other) if other != *literal => return Look::Settled,
                    _ => open = Some(*literal),
                },
            }
        }
        match open {
            Some(literal) => Look::Forced(literal),
            None => Look::Conflict,
        }
    }

    fn set(&mut self, literal: Lit, is_open: bool) -> Result<(), AllocError> {
        if let Some(value) = self.values.get_mut(literal.var as usize) {
            *value = Some(!literal.neg);
        }
        self.trail.push(Choice { literal, is_open })?;
        Ok(())
    }

    /// Takes back all behind the last decision that is to be turned, and turns it. The answer is whether there is one.
    fn turn(&mut self) -> Result<bool, AllocError> {
        for _choice in 0..self.trail.len() {
            let Some(choice) = self.trail.pop() else {
                return Ok(false);
            };
            if let Some(value) = self.values.get_mut(choice.literal.var as usize) {
                *value = None;
            }
            if choice.is_open {
                self.set(choice.literal.negate(), false)?;
                return Ok(true);
            }
        }
        Ok(false)
    }

    /// The first input without a value.
    fn open_input(&self) -> Option<Lit> {
        for input in &self.inputs {
            if self.value(*input).is_none() {
                return Some(*input);
            }
        }
        None
    }
}
