//! Lines over numbered cells as lines of the report.

ghost use Rattle.std.specs.Prelude.{◌≡◌, map, slice_get, IfOk};
ghost use Rattle.uc_meaning.specs.Steps.{state_of};
ghost use Rattle.uc_flat_laws.specs.FlatRefutationsLaws.{positions_of, trace_of};
ghost use Rattle.uc_flat_laws.specs.FlatVerdictsLaws.{decl_of};
ghost use Rattle.uc_judge.specs.Lines.{why_as, verdict_as, at_moment, line_as};

use std::alloc::{AllocError, Global};
use uc_flat::{Flat, FlatPosition};
use uc_flat_copies::FlatCopies;
use uc_flat_lines::{FlatLine, FlatVerdict, FlatWhy};
use uc_items::{Items, at};
use uc_meaning::{At, Choices, Interp, Line, Path, State, Trace, What};
use uc_report::{LineResult, Verdict, Why};

/// When lines over cells are judged, as lines of the design.
#[derive(Clone, Copy, Drop)]
pub(crate) enum Moment {
    /// After just so many steps.
    Unrolled,
    /// The same, as the base of an induction.
    Based,
    /// After so many linked states.
    Linked,
}

/// The moment of so many steps.
fn at_moment(moment: Moment, steps: u32) -> At
    ensures { result ≡ at_moment moment steps }
{
    match moment {
        Moment::Unrolled => At::Exactly(steps),
        Moment::Based => At::Base(steps),
        Moment::Linked => At::Step(steps),
    }
}

/// The states, each with the choices that led to it.
fn states_of(
    alloc: Global,
    positions: Items<FlatPosition>,
) -> Result<Items<(State, Choices)>, AllocError>
    ensures { IfOk result (λ states. states ≡ map (λ p. (state_of p.cells, p.choices)) positions) }
{
    let mut states = Items::new(alloc);
    for position in positions.into_vec() {
        let state = State {
            cells: position.cells,
        };
        states.push((state, position.choices))?;
    }
    Ok(states)
}

/// The states of each copy.
fn copies_of(
    alloc: Global,
    copies: Items<Items<FlatPosition>>,
) -> Result<Items<Items<(State, Choices)>>, AllocError>
    ensures { IfOk result (λ all. all ≡ map positions_of copies) }
{
    let mut all = Items::new(alloc);
    for positions in copies.into_vec() {
        let states = states_of(alloc, positions)?;
        all.push(states)?;
    }
    Ok(all)
}

/// A trace over cells as a trace of the design, with its constants.
fn trace_of(alloc: Global, trace: FlatCopies) -> Result<Trace, AllocError>
    ensures { IfOk result (λ t. t ≡ trace_of trace) }
{
    let copies = copies_of(alloc, trace.copies)?;
    Ok(Trace {
        interp: Interp {
            consts: trace.constants,
            tables: Items::new(alloc),
        },
        copies,
    })
}

fn why_as(budget: u64, why: FlatWhy) -> Why
    ensures { result ≡ why_as budget why }
{
    match why {
        FlatWhy::Budget => Why::Budget(budget),
        FlatWhy::Memory => Why::Memory,
    }
}

fn verdict_as(alloc: Global, budget: u64, verdict: FlatVerdict) -> Result<Verdict, AllocError>
    ensures { IfOk result (λ v. v ≡ verdict_as budget verdict) }
{
    match verdict {
        FlatVerdict::Passed => Ok(Verdict::Passed),
        FlatVerdict::Failed(trace) => {
            let trace = trace_of(alloc, trace)?;
            Ok(Verdict::Failed(trace))
        }
        FlatVerdict::Undef(why) => Ok(Verdict::Undef(why_as(budget, why))),
    }
}

/// The declaration of a formula, by the formula's number.
fn decl_of(f: &Flat, number: u32) -> u32
    ensures { result ≡ decl_of (slice_get f.now.formulas number) }
{
    match at(f.formulas.as_slice(), number as usize) {
        Some(formula) => formula.decl,
        None => 0,
    }
}

/// A line over cells as one of the report, of the command of a number.
fn line_as(
    alloc: Global,
    f: &Flat,
    command: u32,
    moment: Moment,
    budget: u64,
    line: FlatLine,
) -> Result<LineResult, AllocError>
    ensures { IfOk result (λ l. l ≡ line_as f.now command moment budget line) }
{
    let decl = decl_of(f, line.formula);
    let verdict = verdict_as(alloc, budget, line.verdict)?;
    Ok(LineResult {
        command,
        line: Line {
            command,
            at: at_moment(moment, line.steps),
            what: What::Formula {
                path: Path::main(alloc),
                decl,
            },
            arity: 1,
        },
        verdict,
    })
}

/// Lines over cells as lines of the report, in order.
pub(crate) fn lines_as(
    alloc: Global,
    f: &Flat,
    command: u32,
    moment: Moment,
    budget: u64,
    lines: Items<FlatLine>,
) -> Result<Items<LineResult>, AllocError>
    ensures { IfOk result (λ ls. ls ≡ map (line_as f.now command moment budget) lines) }
{
    let mut all = Items::new(alloc);
    for line in lines.into_vec() {
        let one = line_as(alloc, f, command, moment, budget, line)?;
        all.push(one)?;
    }
    Ok(all)
}
