//! Code.

ghost use Rattle.std.specs.Prelude.{◌≡◌, ◌∷◌, [], IfOk};
ghost use Rattle.uc_flat.specs.Drawn.{go, drawn};
ghost use Rattle.uc_flat.specs.Fine.{AreFine};
ghost use Rattle.uc_symstep.specs.Growing.{Grows};
ghost use Rattle.uc_symstep.specs.Stands.{IsState, Follows};
ghost use Rattle.uc_symstep.specs.Known.{CodeReadsTyped, drawn_by, draw_types, Extends};

use crate::branch::{join, open_arms};
use crate::simple::{assert_at, assign, assume, havoc};
use crate::state::Symbolic;
use std::alloc::{AllocError, Global};
use uc_flat::Statement;
use uc_terms::Terms;
use uc_values::Ty;

#[cycle(sym_code)]
#[tactic(auto, using(crate::proofs::Grown::grows_on))]
fn sym_statement(
    terms: &mut Terms,
    alloc: Global,
    types: &[Ty],
    s: Symbolic,
    statement: &Statement,
) -> Result<Symbolic, AllocError>
    requires state { IsState terms.old types.now s }
    requires fine { AreFine types.now (statement.now ∷ []) }
    ensures ok { IfOk result (λ t. Follows terms.old terms.new types.now (λ m. go m types.now m.symbols statement.now) s t) }
    ensures known { IfOk result (λ t. Extends (λ supply. CodeReadsTyped supply (statement.now ∷ [])) (drawn_by types.now statement.now) terms.old s terms.new t) }
    ensures grown { Grows terms.old terms.new }
{
    match statement {
        Statement::Assign(k, e) => {
            let assigned = assign(terms, alloc, types, s, *k, e)?;
            Ok(assigned)
        }
        Statement::Havoc(k, listed) => {
            let havocked = havoc(terms, alloc, types, s, *k, *listed)?;
            Ok(havocked)
        }
        Statement::Assume(e) => {
            let assumed = assume(terms, alloc, types, s, e)?;
            Ok(assumed)
        }
        Statement::Assert(site, e) => {
            let asserted = assert_at(terms, alloc, types, s, *site, e)?;
            Ok(asserted)
        }
        Statement::If(e, xs, ys) => {
            let arms = open_arms(terms, alloc, types, s, e)?;
            let first = sym_code(terms, alloc, types, arms.first, xs.as_slice())?;
            let begin = Symbolic {
                cells: arms.cells,
                path: arms.path,
                taken: arms.other,
                choices: first.choices,
                sites: first.sites,
                next: first.next,
            };
            let second = sym_code(terms, alloc, types, begin, ys.as_slice())?;
            let end = join(
                terms,
                alloc,
                types,
                arms.condition,
                arms.taken,
                first.cells.as_slice(),
                first.path,
                second,
            )?;
            Ok(end)
        }
    }
}

/// The state after code, where each free value is a new symbol.
#[cycle(sym_code)]
#[tactic(auto, using(crate::proofs::Grown::grows_on))]
pub fn sym_code(
    terms: &mut Terms,
    alloc: Global,
    types: &[Ty],
    s: Symbolic,
    code: &[Statement],
) -> Result<Symbolic, AllocError>
    requires state { IsState terms.old types.now s }
    requires fine { AreFine types.now code.now }
    ensures ok { IfOk result (λ t. Follows terms.old terms.new types.now (λ m. drawn m types.now m.symbols code.now) s t) }
    ensures known { IfOk result (λ t. Extends (λ supply. CodeReadsTyped supply code.now) (draw_types types.now code.now) terms.old s terms.new t) }
    ensures grown { Grows terms.old terms.new }
{
    let mut state = s;
    for statement in code {
        state = sym_statement(terms, alloc, types, state, statement)?;
    }
    Ok(state)
}
