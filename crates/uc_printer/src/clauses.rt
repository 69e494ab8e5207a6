//! The words of procedures and of what is bound to an instance.

ghost use Rattle.std.specs.Prelude.{◌≡◌, OnOk};
ghost use Rattle.uc_grammar.specs.declared.word.Kind.TheVariants as kinds;
ghost use Rattle.uc_print_laws.specs.Text.{written};
ghost use Rattle.uc_print_laws.specs.Printed.{each, joined};
ghost use Rattle.uc_print_laws.specs.Declarations.{binding_words, clause_words, procedure_words, results_words};

use crate::{put_block, put_expression};
use std::alloc::AllocError;
use uc_grammar::Kind;
use uc_print_laws::{Page, put_identifiers, put_name, put_parameters, put_sign};
use uc_syntax::{Binding, Clause, Names, Parameter, Procedure, TypeExpr};

fn put_clause(page: &mut Page, names: &Names, clause: &Clause) -> Result<(), AllocError>
    ensures { OnOk result (page.new ≡ written names.now page.old (clause_words clause.now).words) }
{
    match clause {
        Clause::Requires(_, condition) => {
            put_sign(page, Kind::KwRequires)?;
            put_expression(page, names, condition)?;
            put_sign(page, Kind::Semicolon)?;
            Ok(())
        }
        Clause::Ensures(_, condition) => {
            put_sign(page, Kind::KwEnsures)?;
            put_expression(page, names, condition)?;
            put_sign(page, Kind::Semicolon)?;
            Ok(())
        }
        Clause::Modifies(_, variables) => {
            put_sign(page, Kind::KwModifies)?;
            put_identifiers(page, names, variables.as_slice(), Kind::Comma)?;
            put_sign(page, Kind::Semicolon)?;
            Ok(())
        }
    }
}

fn put_clauses(page: &mut Page, names: &Names, clauses: &[Clause]) -> Result<(), AllocError>
    ensures { OnOk result (page.new ≡ written names.now page.old (each clause_words clauses.now).words) }
{
    'clauses: for clause in clauses {
        put_clause(page, names, clause)?;
    }
    Ok(())
}

/// Puts the results of a procedure, where it has any.
#[tactic(auto, using(crate::proofs::DeclarationWords::results_none, crate::proofs::DeclarationWords::results_text))]
fn put_results(
    page: &mut Page,
    names: &Names,
    results: &[Parameter<TypeExpr>],
) -> Result<(), AllocError>
    ensures { OnOk result (page.new ≡ written names.now page.old (results_words results.now).words) }
{
    if results.is_empty() {
        return Ok(());
    }
    put_sign(page, Kind::KwReturns)?;
    put_sign(page, Kind::LeftParen)?;
    put_parameters(page, names, results)?;
    put_sign(page, Kind::RightParen)?;
    Ok(())
}

/// Puts what stands behind the word `procedure`.
#[tactic(auto, using(crate::proofs::DeclarationWords::procedure_text))]
pub fn put_procedure(
    page: &mut Page,
    names: &Names,
    procedure: &Procedure,
) -> Result<(), AllocError>
    ensures { OnOk result (page.new ≡ written names.now page.old (procedure_words procedure.now).words) }
{
    put_name(page, names, procedure.identifier.name)?;
    put_sign(page, Kind::LeftParen)?;
    put_parameters(page, names, procedure.parameters.as_slice())?;
    put_sign(page, Kind::RightParen)?;
    put_results(page, names, procedure.results.as_slice())?;
    put_clauses(page, names, procedure.clauses.as_slice())?;
    put_block(page, names, procedure.body.as_slice())?;
    Ok(())
}

#[tactic(auto, using(crate::proofs::DeclarationWords::binding_text))]
fn put_binding(page: &mut Page, names: &Names, binding: &Binding) -> Result<(), AllocError>
    ensures { OnOk result (page.new ≡ written names.now page.old (binding_words binding.now).words) }
{
    put_name(page, names, binding.identifier.name)?;
    put_sign(page, Kind::Colon)?;
    put_sign(page, Kind::LeftParen)?;
    put_expression(page, names, &binding.expression)?;
    put_sign(page, Kind::RightParen)?;
    Ok(())
}

/// Puts what is bound to an instance, with commas between neighbours.
pub fn put_bindings(page: &mut Page, names: &Names, bindings: &[Binding]) -> Result<(), AllocError>
    ensures { OnOk result (page.new ≡ written names.now page.old (joined kinds.Comma binding_words bindings.now).words) }
{
    let Some((first, rest)) = bindings.split_first() else {
        return Ok(());
    };
    put_binding(page, names, first)?;
    'rest: for one in rest {
        put_sign(page, Kind::Comma)?;
        put_binding(page, names, one)?;
    }
    Ok(())
}
