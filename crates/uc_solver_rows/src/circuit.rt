ghost use Rattle.std.specs.Prelude.{◌≡◌, ◌∷◌, ◌++◌, ◌<◌, ◌^◌, [], None, Some, IfOk, All, length, replicate};
ghost use Rattle.uc_circuit.specs.Gates.{OperandsBelow};

use std::alloc::{AllocError, Global};
use std::process::Abort;
use std::test::Fail;
use uc_circuit::{Circuit, Clause, ClauseState, Gate, Lit, propagation_fixes_gates, state_of};

const A: Lit = Lit { var: 0, neg: false };

const B: Lit = Lit { var: 1, neg: false };

const C: Lit = Lit { var: 2, neg: false };

const NOT_A: Lit = Lit { var: 0, neg: true };

/// A circuit of inputs and one gate.
fn circuit_of(alloc: Global, inputs: u32, gate: Gate) -> Result<Circuit, AllocError>
    requires { OperandsBelow inputs gate }
    ensures { IfOk result (λ c. c ≡ replicate inputs None ++ Some gate ∷ []) }
{
    let mut circuit = Circuit::new(alloc)?;
    for _number in 0..inputs {
        circuit.add_input()?;
    }
    circuit.add_gate(gate)?;
    Ok(circuit)
}

/// The gate's value on these inputs.
fn gate_on(alloc: Global, gate: Gate, inputs: &[bool]) -> Result<bool, AllocError>
    requires few { length inputs.now < 2 ^ 32 }
    requires operands { OperandsBelow (length inputs.now) gate }
{
    let number = inputs.len() as u32;
    circuit_of(alloc, number, gate)?.value(inputs, Lit::positive(number))
}

/// The gate's clauses as text, `-` being negation.
fn clauses_text(alloc: Global, inputs: u32, gate: Gate) -> Result<String, AllocError>
    requires { OperandsBelow inputs gate }
{
    let mut text = String::new(alloc);
    for clause in &circuit_of(alloc, inputs, gate)?.clauses_of(inputs)? {
        for literal in clause.as_slice() {
            let sign = if literal.neg { "-" } else { "" };
            let var = literal.var;
            write!(text, "{sign}{var} ")?;
        }
        text.push_str("/ ")?;
    }
    Ok(text)
}

fn check_clauses(
    rt: &impl Abort,
    alloc: Global,
    inputs: u32,
    gate: Gate,
    wanted: &str,
) -> Result<(), AllocError>
    requires { OperandsBelow inputs gate }
{
    let clauses = clauses_text(alloc, inputs, gate)?;
    assert_eq!(rt; clauses.as_str(), wanted);
    Ok(())
}

#[test]
fn clauses_stand_in_their_order(rt: HostRuntime) -> Result<(), Fail> {
    let both = "-2 0 / -2 1 / 2 -0 -1 / ";
    check_clauses(&rt, rt.alloc(), 2, Gate::And(A, B), both)?;
    let differ = "-2 0 1 / -2 -0 -1 / 2 -0 1 / 2 0 -1 / ";
    check_clauses(&rt, rt.alloc(), 2, Gate::Xor(A, B), differ)?;
    let choice = "-0 -1 3 / -0 1 -3 / 0 -2 3 / 0 2 -3 / ";
    check_clauses(&rt, rt.alloc(), 3, Gate::Mux(A, B, C), choice)?;
    // With the clause 1 nothing is left.
    let never = "-1 0 / -1 -0 / 1 -0 0 / ";
    check_clauses(&rt, rt.alloc(), 1, Gate::And(A, NOT_A), never)?;
    Ok(())
}

#[test]
fn a_gate_has_the_value_of_its_function(rt: HostRuntime) -> Result<(), Fail> {
    let alloc = rt.alloc();
    assert!(rt; !gate_on(alloc, Gate::And(A, B), &[true, false])?);
    assert!(rt; gate_on(alloc, Gate::And(A, B), &[true, true])?);
    assert!(rt; gate_on(alloc, Gate::Xor(NOT_A, B), &[true, true])?);
    assert!(rt; gate_on(alloc, Gate::Mux(A, B, C), &[true, true, false])?);
    assert!(rt; !gate_on(alloc, Gate::Mux(NOT_A, B, C), &[true, true, false])?);
    Ok(())
}

/// The state of a clause where A and B are false and C has no value.
fn check_state(rt: &impl Abort, clause: &[Lit], state: ClauseState)
    requires { All (λ l. l.var < 3) clause.now }
{
    let values = [Some(false), Some(false), None];
    assert_eq!(rt; state_of(clause, &values), state);
}

#[test]
fn a_clause_is_false_or_unit_or_settled(rt: HostRuntime) -> Result<(), Fail> {
    check_state(&rt, &[A, B], ClauseState::Falsified);
    check_state(&rt, &[A, C, B], ClauseState::Unit(C));
    check_state(&rt, &[NOT_A, C], ClauseState::Settled);
    check_state(&rt, &[C, C.negate()], ClauseState::Settled);
    propagation_fixes_gates();
    Ok(())
}

fn clause_of_five(alloc: Global) -> Result<Clause, AllocError> {
    let mut clause = Clause::new(alloc);
    for literal in [A, B, C, NOT_A, A] {
        clause.push(literal)?;
    }
    Ok(clause)
}

#[test]
fn a_clause_outgrows_its_inline_literals(rt: HostRuntime) -> Result<(), Fail> {
    let clause = clause_of_five(rt.alloc())?;
    assert_eq!(rt; clause.as_slice(), [A, B, C, NOT_A, A].as_slice());
    assert!(rt; clause == Clause::from_slice(rt.alloc(), clause.as_slice())?);
    Ok(())
}

/// Each gate reads the one before it twice: a walk of the tree would take 2^100000 steps.
#[test]
fn a_shared_gate_is_evaluated_once(rt: HostRuntime) -> Result<(), Fail> {
    let mut circuit = Circuit::new(rt.alloc())?;
    let mut last = circuit.add_input()?;
    for _number in 0..100_000 {
        last = circuit.add_gate(Gate::And(last, last))?;
    }
    assert!(rt; circuit.value(&[true], last)?);
    Ok(())
}
