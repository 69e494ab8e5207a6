//! The room of a check.

ghost use Rattle.std.specs.Prelude.{◌≡◌, ◌+◌, length, IfOk};
ghost use Rattle.uc_log.specs.Room.{IsRoomFor};
ghost use Rattle.uc_log.specs.Refutes.{unvalued};

use crate::{Log, Problem};
use std::alloc::{AllocError, Global};
use std::marker::Model;
use uc_circuit::Clause;

/// Room to check one log of one problem.
#[derive(Drop)]
pub struct Scratch {
    /// Every clause of the problem and the log.
    pub(crate) clauses: Vec<Clause>,
    /// How many of the clauses are the problem's.
    pub(crate) first: usize,
    /// The values of the variables, none of which has one between entries.
    pub(crate) values: Vec<Option<bool>>,
    /// The variables that hints gave a value.
    pub(crate) trail: Vec<u32>,
}

impl Model for Scratch {
    ghost use Rattle.std.specs.Prelude.{◌≡◌, length};
    ghost use Rattle.uc_log.specs.Room.{Room};
    ghost use Rattle.uc_log.specs.Refutes.{unvalued};

    ghost Value = { Room };

    ghost view = { λ s. record { clauses = s.clauses.items; first = s.first; variables = length s.values.items; steps = length s.trail.items } };

    ghost invariant = { λ s. s.values.items ≡ unvalued (length s.values.items) };
}

impl Scratch {
    /// Want of memory is answered too where a circuit would have 2^32 inputs and gates.
    pub fn new(alloc: Global, p: &Problem, log: &Log) -> Result<Scratch, AllocError>
        ensures { IfOk result (λ s. IsRoomFor p.now log.now s) }
    {
        let mut clauses = p.clauses(alloc)?;
        let first = clauses.len();
        let mut variables = p.circuit().len();
        let mut steps = 0;
        for entry in log.entries() {
            clauses.append(&mut entry.clauses(alloc, variables)?)?;
            variables = sum(variables, entry.variables_count())?;
            steps = entry.hints_count().max(steps);
        }
        Ok(Scratch {
            clauses,
            first,
            values: no_values(alloc, variables as usize)?,
            trail: zeros(alloc, steps)?,
        })
    }
}

fn sum(variables: u32, more: u32) -> Result<u32, AllocError>
    ensures { IfOk result (λ n. n ≡ variables + more) }
{
    variables.checked_add(more).ok_or(AllocError)
}

fn no_values(alloc: Global, count: usize) -> Result<Vec<Option<bool>>, AllocError>
    ensures { IfOk result (λ v. v.items ≡ unvalued count) }
{
    let mut values = Vec::with_capacity(alloc, count)?;
    for _number in 0..count {
        values.push(None)?;
    }
    Ok(values)
}

fn zeros(alloc: Global, count: usize) -> Result<Vec<u32>, AllocError>
    ensures { IfOk result (λ v. length v.items ≡ count) }
{
    let mut zeros = Vec::with_capacity(alloc, count)?;
    for _number in 0..count {
        zeros.push(0)?;
    }
    Ok(zeros)
}
