//! Pigeons, products, random clauses and a contradiction, as circuits written by hand.

ghost use Rattle.std.specs.Prelude.{◌≡◌, ◌<◌, ◌+◌, length, IfOk, OnOk};
ghost use Rattle.uc_learner.specs.Answered.{one_if};
ghost use Rattle.uc_learner.specs.Learners.{input_flags};

use std::alloc::{AllocError, Global};
use uc_circuit::{Circuit, Gate, Lit};
use uc_items::Items;
use uc_log::{Atom, Problem};

/// The problem that the literal is to be true.
pub(crate) fn problem_of(
    alloc: Global,
    circuit: Circuit,
    goal: Lit,
) -> Result<Problem, AllocError> {
    if goal.var >= circuit.len() {
        return Err(AllocError);
    }
    let flags = flags_of(alloc, &circuit)?;
    let mut atoms = Items::new(alloc);
    for number in 0..flags.len() {
        add_atom(&mut atoms, flags[number])?;
    }
    Ok(Problem::of(circuit, goal, atoms))
}

/// For each variable of a circuit, whether it is an input.
fn flags_of(alloc: Global, circuit: &Circuit) -> Result<Vec<bool>, AllocError>
    ensures { IfOk result (λ f. f.items ≡ input_flags circuit.now) }
{
    let mut flags = Vec::with_capacity(alloc, circuit.len() as usize)?;
    for number in 0..circuit.len() {
        flags.push(circuit.gate(number).is_none())?;
    }
    Ok(flags)
}

/// Adds an atom where there is an input.
fn add_atom(atoms: &mut Items<Atom>, is_input: bool) -> Result<(), AllocError>
    ensures { OnOk result (length atoms.new ≡ length atoms.old + one_if is_input) }
{
    if is_input {
        return atoms.push(Atom::Free);
    }
    Ok(())
}

fn gate(circuit: &mut Circuit, gate: Gate) -> Result<Lit, AllocError> {
    if !gate.is_below(circuit.len()) {
        return Err(AllocError);
    }
    circuit.add_gate(gate)
}

/// A literal that is true where each of these is.
fn all_of(circuit: &mut Circuit, literals: &[Lit]) -> Result<Lit, AllocError> {
    let mut all = None;
    for literal in literals {
        all = Some(match all {
            None => *literal,
            Some(before) => gate(circuit, Gate::And(before, *literal))?,
        });
    }
    all.ok_or(AllocError)
}

/// A literal that is true where one of these is.
fn one_of(alloc: Global, circuit: &mut Circuit, literals: &[Lit]) -> Result<Lit, AllocError> {
    let mut negated = Vec::new(alloc);
    for literal in literals {
        negated.push(literal.negate())?;
    }
    Ok(all_of(circuit, negated.as_slice())?.negate())
}

fn inputs(alloc: Global, circuit: &mut Circuit, count: u32) -> Result<Vec<Lit>, AllocError> {
    let mut literals = Vec::new(alloc);
    for _number in 0..count {
        literals.push(circuit.add_input()?)?;
    }
    Ok(literals)
}

/// The rules that two pigeons are in no hole together.
fn add_apart(
    circuit: &mut Circuit,
    rules: &mut Vec<Lit>,
    row: &[Lit],
    other: &[Lit],
) -> Result<(), AllocError> {
    for (mine, theirs) in row.iter().zip(other.iter()) {
        rules.push(gate(circuit, Gate::And(*mine, *theirs))?.negate())?;
    }
    Ok(())
}

/// A pigeon more, with its rules.
fn add_pigeon(
    alloc: Global,
    circuit: &mut Circuit,
    rules: &mut Vec<Lit>,
    rows: &mut Vec<Vec<Lit>>,
    holes: u32,
) -> Result<(), AllocError> {
    let row = inputs(alloc, circuit, holes)?;
    rules.push(one_of(alloc, circuit, row.as_slice())?)?;
    for other in rows.as_slice() {
        add_apart(circuit, rules, row.as_slice(), other.as_slice())?;
    }
    rows.push(row)?;
    Ok(())
}

fn pigeon_rules(
    alloc: Global,
    circuit: &mut Circuit,
    count: u32,
    holes: u32,
) -> Result<Vec<Lit>, AllocError> {
    let mut rules = Vec::new(alloc);
    let mut rows = Vec::new(alloc);
    for _pigeon in 0..count {
        add_pigeon(alloc, circuit, &mut rules, &mut rows, holes)?;
    }
    Ok(rules)
}

/// Each pigeon has a hole, and no two have one.
pub(crate) fn pigeons(alloc: Global, count: u32, holes: u32) -> Result<Problem, AllocError> {
    let mut circuit = Circuit::new(alloc)?;
    let rules = pigeon_rules(alloc, &mut circuit, count, holes)?;
    let goal = all_of(&mut circuit, rules.as_slice())?;
    problem_of(alloc, circuit, goal)
}

/// The sum of two numbers, lowest bit first, with as many bits as the first.
fn sum(
    alloc: Global,
    circuit: &mut Circuit,
    zero: Lit,
    left: &[Lit],
    right: &[Lit],
) -> Result<Vec<Lit>, AllocError> {
    let mut bits = Vec::new(alloc);
    let mut carry = zero;
    for (x, y) in left.iter().zip(right.iter()) {
        let differ = gate(circuit, Gate::Xor(*x, *y))?;
        bits.push(gate(circuit, Gate::Xor(differ, carry))?)?;
        carry = gate(circuit, Gate::Mux(differ, carry, *x))?;
    }
    Ok(bits)
}

/// The product of two numbers, with as many bits as the first.
fn product(
    alloc: Global,
    circuit: &mut Circuit,
    zero: Lit,
    left: &[Lit],
    right: &[Lit],
) -> Result<Vec<Lit>, AllocError> {
    let mut total = Vec::new(alloc);
    add_zeros(&mut total, zero, left.len())?;
    for place in 0..right.len() {
        let row = row_of(alloc, circuit, zero, left, place, right[place])?;
        total = sum(alloc, circuit, zero, total.as_slice(), row.as_slice())?;
    }
    Ok(total)
}

fn add_zeros(bits: &mut Vec<Lit>, zero: Lit, count: usize) -> Result<(), AllocError> {
    for _bit in 0..count {
        bits.push(zero)?;
    }
    Ok(())
}

/// The product of a number and a digit, shifted to the place of the digit.
fn row_of(
    alloc: Global,
    circuit: &mut Circuit,
    zero: Lit,
    left: &[Lit],
    place: usize,
    digit: Lit,
) -> Result<Vec<Lit>, AllocError> {
    let mut row = Vec::new(alloc);
    add_zeros(&mut row, zero, place)?;
    for bit in left {
        row.push(gate(circuit, Gate::And(*bit, digit))?)?;
    }
    Ok(row)
}

/// A literal that is never true.
fn never(circuit: &mut Circuit, literals: &[Lit]) -> Result<Lit, AllocError> {
    let first = *literals.first().ok_or(AllocError)?;
    gate(circuit, Gate::And(first, first.negate()))
}

/// The products of two numbers in both orders differ.
pub(crate) fn commutativity(alloc: Global, bits: u32) -> Result<Problem, AllocError> {
    let mut circuit = Circuit::new(alloc)?;
    let left = inputs(alloc, &mut circuit, bits)?;
    let right = inputs(alloc, &mut circuit, bits)?;
    let goal = products_differ(alloc, &mut circuit, left.as_slice(), right.as_slice())?;
    problem_of(alloc, circuit, goal)
}

fn products_differ(
    alloc: Global,
    circuit: &mut Circuit,
    left: &[Lit],
    right: &[Lit],
) -> Result<Lit, AllocError> {
    let zero = never(circuit, left)?;
    let here = product(alloc, circuit, zero, left, right)?;
    let there = product(alloc, circuit, zero, right, left)?;
    differ(alloc, circuit, here.as_slice(), there.as_slice())
}

/// A literal that is true where two numbers differ.
fn differ(
    alloc: Global,
    circuit: &mut Circuit,
    here: &[Lit],
    there: &[Lit],
) -> Result<Lit, AllocError> {
    let mut differ = Vec::new(alloc);
    for (x, y) in here.iter().zip(there.iter()) {
        differ.push(gate(circuit, Gate::Xor(*x, *y))?)?;
    }
    one_of(alloc, circuit, differ.as_slice())
}

/// A number of twice as many bits is a product of two numbers above 1.
pub(crate) fn factors(alloc: Global, bits: u32, number: u64) -> Result<Problem, AllocError> {
    let mut circuit = Circuit::new(alloc)?;
    let left = inputs(alloc, &mut circuit, bits)?;
    let right = inputs(alloc, &mut circuit, bits)?;
    let goal = factors_give(
        alloc,
        &mut circuit,
        left.as_slice(),
        right.as_slice(),
        number,
    )?;
    problem_of(alloc, circuit, goal)
}

/// A literal that is true where both factors are above 1 and their product is the number.
fn factors_give(
    alloc: Global,
    circuit: &mut Circuit,
    left: &[Lit],
    right: &[Lit],
    number: u64,
) -> Result<Lit, AllocError> {
    let zero = never(circuit, left)?;
    let mut rules = Vec::new(alloc);
    rules.push(is_above_one(alloc, circuit, left)?)?;
    rules.push(is_above_one(alloc, circuit, right)?)?;
    let product = wide_product(alloc, circuit, zero, left, right)?;
    add_number(&mut rules, product.as_slice(), number)?;
    all_of(circuit, rules.as_slice())
}

fn is_above_one(alloc: Global, circuit: &mut Circuit, factor: &[Lit]) -> Result<Lit, AllocError> {
    let above = factor.get(1..).ok_or(AllocError)?;
    one_of(alloc, circuit, above)
}

/// The product of two numbers, with twice as many bits as the first.
fn wide_product(
    alloc: Global,
    circuit: &mut Circuit,
    zero: Lit,
    left: &[Lit],
    right: &[Lit],
) -> Result<Vec<Lit>, AllocError> {
    let mut wide = Vec::from_slice(alloc, left)?;
    add_zeros(&mut wide, zero, left.len())?;
    product(alloc, circuit, zero, wide.as_slice(), right)
}

/// The rules that the bits are those of the number.
fn add_number(rules: &mut Vec<Lit>, bits: &[Lit], number: u64) -> Result<(), AllocError> {
    let mut rest = number;
    for bit in bits {
        rules.push(if rest % 2 == 1 { *bit } else { bit.negate() })?;
        rest /= 2;
    }
    Ok(())
}

/// Gate 1, which is input 0 and its negation, is to be true.
pub(crate) fn contradiction(alloc: Global) -> Result<Problem, AllocError> {
    let mut circuit = Circuit::new(alloc)?;
    let input = circuit.add_input()?;
    let goal = gate(&mut circuit, Gate::And(input, input.negate()))?;
    problem_of(alloc, circuit, goal)
}

/// Numbers that look random, the same in each run.
#[derive(Drop)]
pub(crate) struct Random {
    pub(crate) state: u64,
}

impl Random {
    /// A number below the bound, which is not 0.
    fn below(&mut self, bound: u64) -> u64 {
        self.state = self
            .state
            .wrapping_mul(6_364_136_223_846_793_005)
            .wrapping_add(1_442_695_040_888_963_407);
        (self.state >> 33).checked_rem(bound).unwrap_or(0)
    }
}

/// So many clauses of three literals of different variables are all true.
pub(crate) fn random_clauses(
    alloc: Global,
    random: &mut Random,
    variables: u32,
    clauses: u32,
) -> Result<Problem, AllocError> {
    let mut circuit = Circuit::new(alloc)?;
    let variables = inputs(alloc, &mut circuit, variables)?;
    let goal = random_rules(alloc, &mut circuit, random, variables.as_slice(), clauses)?;
    problem_of(alloc, circuit, goal)
}

/// A literal that is true where so many random clauses are.
fn random_rules(
    alloc: Global,
    circuit: &mut Circuit,
    random: &mut Random,
    variables: &[Lit],
    clauses: u32,
) -> Result<Lit, AllocError> {
    let mut rules = Vec::new(alloc);
    for _clause in 0..clauses {
        let clause = random_clause(alloc, random, variables)?;
        rules.push(one_of(alloc, circuit, clause.as_slice())?)?;
    }
    all_of(circuit, rules.as_slice())
}

fn random_clause(
    alloc: Global,
    random: &mut Random,
    variables: &[Lit],
) -> Result<Vec<Lit>, AllocError> {
    let mut clause: Vec<Lit> = Vec::new(alloc);
    for _try in 0..100 {
        let place = random.below(variables.len() as u64);
        let literal = *variables.get(place as usize).ok_or(AllocError)?;
        if clause.len() < 3 && clause.iter().all(|other| other.var != literal.var) {
            let is_negated = random.below(2) == 1;
            clause.push(if is_negated {
                literal.negate()
            } else {
                literal
            })?;
        }
    }
    Ok(clause)
}
