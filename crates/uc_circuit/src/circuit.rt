//! A circuit: inputs and gates in one numbering, each gate over what stands before it.

ghost use Rattle.std.specs.Prelude.{◌≡◌, ◌↔◌, ◌<◌, ◌≤◌, ◌+◌, ◌^◌, ◌∷◌, ◌++◌, ℕ, [], None, Some, length, slice_index_or, IsTrue, IfOk, OnOk, OnErr, IfSome};
ghost use Rattle.std.specs.Option.{option_copied};
ghost use Rattle.uc_circuit.specs.Literals.{positive};
ghost use Rattle.uc_circuit.specs.Gates.{DefineGate, OperandsBelow, clauses_of_gate};
ghost use Rattle.uc_circuit.specs.Circuits.{IsOrdered, inputs_of, literal_value_in, node_clauses, node_values};

use crate::{Clause, Gate, Lit};
use std::alloc::{AllocError, Global};
use std::marker::Model;

/// Inputs and gates, numbered in the order in which they were added: each is a variable.
#[derive(Drop)]
pub struct Circuit {
    /// The gate of each number, None for an input.
    nodes: Vec<Option<Gate>>,
}

impl Model for Circuit {
    ghost use Rattle.std.specs.Prelude.{List, Option};
    ghost use Rattle.uc_circuit.specs.declared.gate.Gate.{Gate};

    ghost Value = { List (Option Gate) };

    ghost use Rattle.uc_circuit.specs.Circuits.{IsCircuit};

    ghost view = { λ c. c.nodes.items };

    ghost invariant = { λ c. IsCircuit c.nodes.items };
}

impl Circuit {
    pub fn new(alloc: Global) -> Result<Circuit, AllocError>
        ensures { IfOk result (λ c. c ≡ []) }
    {
        Ok(Circuit {
            nodes: Vec::new(alloc),
        })
    }

    /// The number of inputs and gates.
    pub fn len(&self) -> u32
        ensures len { result ≡ length self.now }
        ensures ordered { IsOrdered self.now }
    {
        self.nodes.len() as u32
    }

    pub fn is_empty(&self) -> bool
        ensures { IsTrue result ↔ (self.now ≡ []) }
    {
        self.nodes.is_empty()
    }

    /// The gate of a number, None for an input.
    pub fn gate(&self, n: u32) -> Option<&Gate>
        requires { n < length self.now }
        ensures gate { option_copied result ≡ slice_index_or self.now n None }
        ensures operands { IfSome result (λ g. OperandsBelow n g.now) }
    {
        self.nodes[n as usize].as_ref()
    }

    /// Adds an input. A circuit has room for 2^32 - 1 inputs and gates.
    pub fn add_input(&mut self) -> Result<Lit, AllocError>
        ensures literal { IfOk result (λ l. l ≡ positive (length self.old)) }
        ensures ok { IfOk result (λ _. self.new ≡ self.old ++ None ∷ []) }
        ensures err { OnErr result (self.new ≡ self.old) }
    {
        let var = self.next_number()?;
        self.nodes.push(None)?;
        Ok(Lit::positive(var))
    }

    /// Adds a gate whose operands are in the circuit.
    pub fn add_gate(&mut self, g: Gate) -> Result<Lit, AllocError>
        requires { OperandsBelow (length self.old) g }
        ensures literal { IfOk result (λ l. l ≡ positive (length self.old)) }
        ensures ok { IfOk result (λ _. self.new ≡ self.old ++ Some g ∷ []) }
        ensures err { OnErr result (self.new ≡ self.old) }
    {
        let var = self.next_number()?;
        self.nodes.push(Some(g))?;
        Ok(Lit::positive(var))
    }

    /// The clauses of a gate: all true exactly where its variable has the value of its function.
    /// An input has none.
    pub fn clauses_of(&self, n: u32) -> Result<Vec<Clause>, AllocError>
        requires { n < length self.now }
        ensures clauses { IfOk result (λ cs. cs.items ≡ node_clauses n (slice_index_or self.now n None)) }
        ensures define { IfOk result (λ cs. (g : Gate) → slice_index_or self.now n None ≡ Some g → DefineGate cs.items n g) }
    {
        let alloc = *self.nodes.allocator();
        match self.nodes[n as usize] {
            None => Ok(Vec::new(alloc)),
            Some(gate) => clauses_of_gate(alloc, n, gate),
        }
    }

    /// The values of all inputs and gates, from one value per input in order.
    pub fn values(&self, inputs: &[bool]) -> Result<Vec<bool>, AllocError>
        requires { length inputs.now ≡ inputs_of self.now }
        ensures { IfOk result (λ v. v.items ≡ node_values self.now inputs.now) }
    {
        evaluated(*self.nodes.allocator(), self.nodes.as_slice(), inputs)
    }

    /// The value of a literal, from one value per input in order. Each gate is visited once at most.
    pub fn value(&self, inputs: &[bool], l: Lit) -> Result<bool, AllocError>
        requires inputs { length inputs.now ≡ inputs_of self.now }
        requires literal { l.var < length self.now }
        ensures { IfOk result (λ b. b ≡ literal_value_in self.now inputs.now l) }
    {
        let nodes = &self.nodes[..l.var as usize + 1];
        let values = evaluated(*self.nodes.allocator(), nodes, inputs)?;
        Ok(l.value(values.as_slice()))
    }

    /// The number of the next node.
    fn next_number(&self) -> Result<u32, AllocError>
        ensures number { IfOk result (λ n. n ≡ length self.now) }
        ensures room { IfOk result (λ n. n + 1 < 2 ^ 32) }
    {
        if self.nodes.len() < u32::MAX as usize {
            Ok(self.nodes.len() as u32)
        } else {
            Err(AllocError)
        }
    }
}

fn evaluated(
    alloc: Global,
    nodes: &[Option<Gate>],
    inputs: &[bool],
) -> Result<Vec<bool>, AllocError>
    requires ordered { IsOrdered nodes.now }
    requires inputs { inputs_of nodes.now ≤ length inputs.now }
    ensures { IfOk result (λ v. v.items ≡ node_values nodes.now inputs.now) }
{
    let mut values = Vec::with_capacity(alloc, nodes.len())?;
    let mut next = 0;
    for node in nodes {
        match node {
            None => {
                values.push(inputs[next])?;
                next += 1;
            }
            Some(gate) => values.push(gate.value(values.as_slice()))?,
        }
    }
    Ok(values)
}

/// The clauses of the gate of this number. They take memory.
pub fn clauses_of_gate(alloc: Global, number: u32, gate: Gate) -> Result<Vec<Clause>, AllocError>
    ensures { IfOk result (λ cs. cs.items ≡ clauses_of_gate number gate) }
{
    let on = Lit::positive(number);
    let off = on.negate();
    let mut clauses = Vec::with_capacity(alloc, gate.clauses_count())?;
    match gate {
        Gate::And(left, right) => {
            add_clause(alloc, &mut clauses, &[off, left])?;
            add_clause(alloc, &mut clauses, &[off, right])?;
            add_clause(alloc, &mut clauses, &[on, left.negate(), right.negate()])?;
        }
        Gate::Xor(left, right) => {
            add_clause(alloc, &mut clauses, &[off, left, right])?;
            add_clause(alloc, &mut clauses, &[off, left.negate(), right.negate()])?;
            add_clause(alloc, &mut clauses, &[on, left.negate(), right])?;
            add_clause(alloc, &mut clauses, &[on, left, right.negate()])?;
        }
        Gate::Mux(condition, then, other) => {
            add_clause(
                alloc,
                &mut clauses,
                &[condition.negate(), then.negate(), on],
            )?;
            add_clause(alloc, &mut clauses, &[condition.negate(), then, off])?;
            add_clause(alloc, &mut clauses, &[condition, other.negate(), on])?;
            add_clause(alloc, &mut clauses, &[condition, other, off])?;
        }
    }
    Ok(clauses)
}

fn add_clause(alloc: Global, clauses: &mut Vec<Clause>, literals: &[Lit]) -> Result<(), AllocError>
    ensures { OnOk result (clauses.new.items ≡ clauses.old.items ++ literals.now ∷ []) }
{
    clauses.push(Clause::from_slice(alloc, literals)?)?;
    Ok(())
}
