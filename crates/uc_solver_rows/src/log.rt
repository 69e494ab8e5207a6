//! The smallest refuted problem, logs with each kind of entry, and what atoms ask of terms.

ghost use Rattle.std.specs.Prelude.{◌≡◌, ◌+◌, ◌<◌, ◌^◌, Some, length, IfOk, IsTrue};
ghost use Rattle.uc_ops.specs.Typing.{Valid};
ghost use Rattle.uc_log.specs.Entries.{Accepts};

use std::alloc::{AllocError, Global};
use std::process::Abort;
use std::test::Fail;
use uc_circuit::{Circuit, Clause, Gate, Lit};
use uc_items::{Boxed, Items};
use uc_linear::Form;
use uc_log::{
    Atom, CountMeter, Entry, Log, Meter, Problem, Scratch, accepted_logs_refute, check, logs_grow,
};
use uc_terms::{Op, TermId, Terms};
use uc_values::Ty;

const INPUT: Lit = Lit { var: 0, neg: false };

const GATE: Lit = Lit { var: 1, neg: false };

const DOUBLE: Lit = Lit { var: 2, neg: false };

const NOT_DOUBLE: Lit = Lit { var: 2, neg: true };

/// Gate 1, which is input 0 and its negation, is to be true.
/// Its clauses are 0: (-1, 0), 1: (-1, -0), 2: (1, -0, 0) and 3: (1).
fn contradiction(alloc: Global) -> Result<Problem, AllocError> {
    let mut circuit = Circuit::new(alloc)?;
    let input = circuit.add_input()?;
    let gate = circuit.add_gate(Gate::And(input, input.negate()))?;
    let mut atoms = Items::new(alloc);
    atoms.push(Atom::Free)?;
    Ok(Problem::of(circuit, gate, atoms))
}

fn learnt(alloc: Global, literals: &[Lit], hints: &[u32]) -> Result<Entry, AllocError> {
    let clause = Clause::from_slice(alloc, literals)?;
    let hints = Items::from_slice(alloc, hints)?;
    Ok(Entry::Learnt(clause, hints))
}

/// Whether the log is accepted for the problem, in room of its own.
fn accepts(alloc: Global, terms: &Terms, p: &Problem, log: &Log) -> Result<bool, AllocError>
    ensures { IfOk result (λ accepted. IsTrue accepted → Accepts terms.now p.now log.now) }
{
    let mut s = Scratch::new(alloc, p, log)?;
    Ok(check(terms, p, log, &mut s))
}

/// Whether the log is accepted for the contradiction.
fn is_accepted(alloc: Global, log: &Log) -> Result<bool, AllocError> {
    let p = contradiction(alloc)?;
    let terms = Terms::new(alloc)?;
    accepts(alloc, &terms, &p, log)
}

/// The log of one empty clause with these hints.
fn log_of_one(alloc: Global, hints: &[u32]) -> Result<Log, AllocError>
    ensures { IfOk result (λ log. length log ≡ 1) }
{
    let mut log = Log::new(alloc)?;
    log.push(learnt(alloc, &[], hints)?)?;
    Ok(log)
}

/// Whether the log of one empty clause with these hints is accepted.
fn refutes(alloc: Global, hints: &[u32]) -> Result<bool, AllocError> {
    let log = log_of_one(alloc, hints)?;
    is_accepted(alloc, &log)
}

#[test]
fn hints_are_walked_in_order(rt: HostRuntime) -> Result<(), Fail> {
    let alloc = rt.alloc();
    assert!(rt; refutes(alloc, &[3, 0, 1])?);
    assert!(rt; refutes(alloc, &[3, 1, 0])?);
    assert!(rt; !refutes(alloc, &[0, 1])?, "neither is unit");
    assert!(rt; !refutes(alloc, &[3, 0])?, "no clause is false");
    assert!(rt; !refutes(alloc, &[])?);
    assert!(rt;
        !refutes(alloc, &[3, 0, 1, 2])?,
        "a hint after the false clause"
    );
    assert!(rt;
        !refutes(alloc, &[3, 3, 0, 1])?,
        "a hint that is true already"
    );
    assert!(rt; !refutes(alloc, &[3, 0, 4])?, "its own number");
    accepted_logs_refute();
    logs_grow();
    Ok(())
}

/// The literals and the hints of a learnt clause.
type Learnt = (&'static [Lit], &'static [u32]);

/// Whether the log is accepted that has gate 2 = And(1, 1) with the clauses 4 to 6, and then these clauses.
fn extends(alloc: Global, clauses: &[Learnt]) -> Result<bool, AllocError> {
    let mut log = Log::new(alloc)?;
    log.push(Entry::Gate(Gate::And(GATE, GATE)))?;
    for &(literals, hints) in clauses {
        log.push(learnt(alloc, literals, hints)?)?;
    }
    is_accepted(alloc, &log)
}

/// Clause 7.
const SEVENTH: Learnt = (&[DOUBLE], &[3, 6]);

const NEVER_FALSE: Learnt = (&[DOUBLE, NOT_DOUBLE], &[3, 0, 1]);

#[test]
fn every_entry_is_checked(rt: HostRuntime) -> Result<(), Fail> {
    let alloc = rt.alloc();
    assert!(rt;
        !extends(alloc, &[SEVENTH])?,
        "the last clause is not empty"
    );
    assert!(rt; extends(alloc, &[SEVENTH, (&[], &[7, 4, 0, 1])])?);
    assert!(rt; !extends(alloc, &[NEVER_FALSE, (&[], &[3, 0, 1])])?);
    Ok(())
}

/// The log of a gate of the input and this operand, and of the empty clause.
fn log_with_gate(alloc: Global, operand: Lit) -> Result<Log, AllocError> {
    let mut log = Log::new(alloc)?;
    log.push(Entry::Gate(Gate::Xor(INPUT, operand)))?;
    log.push(learnt(alloc, &[], &[3, 0, 1])?)?;
    Ok(log)
}

#[test]
fn a_gate_reads_what_stands_before_it(rt: HostRuntime) -> Result<(), Fail> {
    let alloc = rt.alloc();
    assert!(rt; is_accepted(alloc, &log_with_gate(alloc, GATE)?)?);
    assert!(rt; !is_accepted(alloc, &log_with_gate(alloc, DOUBLE)?)?);
    Ok(())
}

fn number_of(
    alloc: Global,
    log: &Log,
    literals: &[Lit],
    hints: &[u32],
) -> Result<Option<u32>, AllocError> {
    Ok(log.find(&learnt(alloc, literals, hints)?))
}

#[test]
fn an_entry_is_found(rt: HostRuntime) -> Result<(), Fail> {
    let alloc = rt.alloc();
    let log = log_with_gate(alloc, GATE)?;
    assert!(rt; number_of(alloc, &log, &[], &[3, 0, 1])? == Some(1));
    assert!(rt; number_of(alloc, &log, &[], &[3, 0])? == None);
    assert!(rt; number_of(alloc, &log, &[GATE], &[3, 0, 1])? == None);
    Ok(())
}

/// The entry of a bit of the first term.
fn bit(number: u8) -> Entry {
    Entry::Atom(Atom::Bit(TermId::new(0), number))
}

/// The entry that a number is at most 0.
fn bound(alloc: Global, number: i128) -> Entry {
    Entry::Atom(Atom::Le(Form::number(alloc, number)))
}

/// A gate, a bit and a bound.
fn log_of_kinds(alloc: Global) -> Result<Log, AllocError> {
    let mut log = Log::new(alloc)?;
    log.push(Entry::Gate(Gate::Xor(INPUT, GATE)))?;
    log.push(bit(3))?;
    log.push(bound(alloc, 1))?;
    Ok(log)
}

fn found(log: &Log, entry: Entry) -> Option<u32> {
    log.find(&entry)
}

#[test]
fn entries_of_one_kind_differ(rt: HostRuntime) -> Result<(), Fail> {
    let alloc = rt.alloc();
    let log = log_of_kinds(alloc)?;
    assert!(rt; found(&log, Entry::Gate(Gate::Xor(INPUT, GATE))) == Some(0));
    assert!(rt; found(&log, Entry::Gate(Gate::And(INPUT, GATE))) == None);
    assert!(rt; found(&log, bit(3)) == Some(1));
    assert!(rt; found(&log, bit(2)) == None);
    assert!(rt; found(&log, bound(alloc, 1)) == Some(2));
    assert!(rt; found(&log, bound(alloc, 2)) == None);
    assert!(rt; found(&log, Entry::Atom(Atom::Free)) == None);
    Ok(())
}

fn symbol(terms: &mut Terms, alloc: Global, number: u32, ty: Ty) -> Result<TermId, AllocError>
    requires { Valid ty }
{
    terms.mk(alloc, Op::Symbol(number, ty), &[])
}

/// The form that is the value of a term.
fn variable(alloc: Global, term: TermId) -> Result<Form, AllocError> {
    let mut pairs = Vec::new(alloc);
    pairs.push((term.number(), 1i128))?;
    Form::of(0, pairs).ok_or(AllocError)
}

/// Symbols by their types.
#[derive(Clone, Copy)]
struct Typed {
    truth: TermId,
    bits: TermId,
    integer: TermId,
    /// Two of one type without interpretation.
    first: TermId,
    second: TermId,
    /// One of another such type.
    other: TermId,
}

fn add_symbols(terms: &mut Terms, alloc: Global) -> Result<Typed, AllocError> {
    Ok(Typed {
        truth: symbol(terms, alloc, 0, Ty::Bool)?,
        bits: symbol(terms, alloc, 1, Ty::Bv(4))?,
        integer: symbol(terms, alloc, 2, Ty::Int)?,
        first: symbol(terms, alloc, 3, Ty::Un(0))?,
        second: symbol(terms, alloc, 4, Ty::Un(0))?,
        other: symbol(terms, alloc, 5, Ty::Un(1))?,
    })
}

fn is_meant(terms: &Terms, atom: Atom) -> bool {
    atom.is_meant(terms)
}

/// Whether it is meant that a term is at most 0.
fn is_bound_meant(alloc: Global, terms: &Terms, t: TermId) -> Result<bool, AllocError> {
    let form = variable(alloc, t)?;
    Ok(is_meant(terms, Atom::Le(form)))
}

fn check_bits(rt: &impl Abort, terms: &Terms, typed: Typed) {
    let missing = TermId::new(9);
    for (term, bit, meant) in [
        (typed.truth, 0, true),
        (typed.truth, 1, false),
        (typed.bits, 3, true),
        (typed.bits, 4, false),
        (typed.integer, 0, false),
        (missing, 0, false),
    ] {
        assert!(rt; is_meant(terms, Atom::Bit(term, bit)) == meant);
    }
}

fn check_equalities(rt: &impl Abort, terms: &Terms, typed: Typed) {
    let missing = TermId::new(9);
    for (left, right, meant) in [
        (typed.first, typed.second, true),
        (typed.first, typed.other, false),
        (typed.truth, typed.truth, false),
        (typed.first, missing, false),
    ] {
        assert!(rt; is_meant(terms, Atom::Eq(left, right)) == meant);
    }
}

fn check_atoms(
    rt: &impl Abort,
    alloc: Global,
    terms: &Terms,
    typed: Typed,
) -> Result<(), AllocError> {
    assert!(rt; !is_meant(terms, Atom::Free));
    check_bits(rt, terms, typed);
    check_equalities(rt, terms, typed);
    assert!(rt; is_bound_meant(alloc, terms, typed.integer)?);
    assert!(rt; !is_bound_meant(alloc, terms, typed.bits)?);
    Ok(())
}

#[test]
fn an_atom_asks_for_types(rt: HostRuntime) -> Result<(), Fail> {
    let alloc = rt.alloc();
    let mut terms = Terms::new(alloc)?;
    let typed = add_symbols(&mut terms, alloc)?;
    check_atoms(&rt, alloc, &terms, typed)?;
    Ok(())
}

/// Opens the problem and spends the one entry of its log.
fn spend_one<M: Meter>(meter: &mut M, terms: &Terms, p: Problem, log: &Log)
    requires accepted { Accepts terms.now p log.now }
    requires one { length log.now ≡ 1 }
    requires total { M.total meter.old < 2 ^ 127 }
    ensures opened { M.opened meter.new ≡ Some p }
    ensures here { M.here meter.new ≡ 1 }
    ensures total { M.total meter.new ≡ M.total meter.old + 1 }
{
    meter.open(p);
    meter.spend(terms, log);
}

/// A meter has a problem once it is opened.
fn check_meter(rt: &impl Abort, terms: &Terms, p: Problem, log: &Log)
    requires accepted { Accepts terms.now p log.now }
    requires one { length log.now ≡ 1 }
{
    let mut meter = CountMeter::new();
    assert!(rt; meter.problem().is_none());
    spend_one(&mut meter, terms, p, log);
    assert!(rt; meter.problem().is_some());
}

/// The log is accepted for the contradiction, and a meter is told of its entry.
fn check_entries(rt: &impl Abort, alloc: Global, log: &Log) -> Result<(), AllocError>
    requires { length log.now ≡ 1 }
{
    let terms = Terms::new(alloc)?;
    let p = contradiction(alloc)?;
    let accepted = accepts(alloc, &terms, &p, log)?;
    assert!(rt; accepted);
    check_meter(rt, &terms, p, log);
    Ok(())
}

#[test]
fn a_meter_counts_entries(rt: HostRuntime) -> Result<(), Fail> {
    let alloc = rt.alloc();
    let log = log_of_one(alloc, &[3, 0, 1])?;
    check_entries(&rt, alloc, &log)?;
    Ok(())
}
