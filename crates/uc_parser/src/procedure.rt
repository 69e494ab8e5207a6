//! Reads procedures.

ghost use Rattle.std.specs.Prelude.{◌≡◌};
ghost use Rattle.uc_forms.specs.CountedGives.{Counts};
ghost use Rattle.uc_forms.specs.Form.{both, many};
ghost use Rattle.uc_grammar.specs.Syntax.{clause, procedure, results_of, statements};
ghost use Rattle.uc_parser.specs.Parts.{returned};
ghost use Rattle.uc_parse_expressions.specs.Reading.{state, form};

use crate::clause::clauses;
use crate::statements;
use std::alloc::Global;
use uc_forms::Stop;
use uc_grammar::Kind;
use uc_items::{Items, beside};
use uc_parse_expressions::{Reader, params, results};
use uc_syntax::{Clause, Parameter, Procedure, Stmt, TypeExpr};

/// The parameters or the results of a procedure.
type Parameters = Items<Parameter<TypeExpr>>;

/// The results of a procedure, where it says that it has some.
fn returned(reader: &mut Reader<'_>, levels: u8) -> Result<Option<Parameters>, Stop>
    ensures { Counts result (state reader.new) (form levels returned (state reader.old)) }
{
    if reader.is_at(Kind::KwReturns) {
        reader.take(Kind::KwReturns)?;
        let found = results(reader, levels)?;
        return Ok(Some(found));
    }
    Ok(None)
}

/// None where the procedure does not say that it has results.
fn results_of(alloc: Global, returned: Option<Parameters>) -> Parameters
    ensures { result ≡ results_of returned }
{
    match returned {
        Some(results) => results,
        None => Items::new(alloc),
    }
}

/// The clauses and the body of a procedure.
fn clauses_and_body(
    reader: &mut Reader<'_>,
    levels: u8,
) -> Result<(Items<Clause>, Items<Stmt>), Stop>
    ensures { Counts result (state reader.new) (form levels (both (many clause) statements) (state reader.old)) }
{
    let clauses = clauses(reader, levels)?;
    let both = beside(clauses, statements(reader, levels))?;
    Ok(both)
}

/// What stands behind the parameters: the results, the clauses and the body.
fn behind_parameters(
    reader: &mut Reader<'_>,
    levels: u8,
) -> Result<(Option<Parameters>, (Items<Clause>, Items<Stmt>)), Stop>
    ensures { Counts result (state reader.new) (form levels (both returned (both (many clause) statements)) (state reader.old)) }
{
    let results = returned(reader, levels)?;
    let both = beside(results, clauses_and_body(reader, levels))?;
    Ok(both)
}

/// A procedure, behind its keyword.
#[tactic(auto, unfolding(uc_grammar::specs::Syntax::procedure))]
pub(crate) fn procedure(reader: &mut Reader<'_>, levels: u8) -> Result<Procedure, Stop>
    ensures { Counts result (state reader.new) (form levels procedure (state reader.old)) }
{
    let identifier = reader.new_id()?;
    let parameters = params(reader, levels)?;
    let (parameters, behind) = beside(parameters, behind_parameters(reader, levels))?;
    let (returned, (clauses, body)) = behind;
    Ok(Procedure {
        identifier,
        parameters,
        results: results_of(reader.alloc, returned),
        clauses,
        body,
    })
}
