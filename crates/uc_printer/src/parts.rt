//! The words of parts of statements.

ghost use Rattle.std.specs.Prelude.{◌≡◌, ℕ, List, OnOk};
ghost use Rattle.uc_grammar.specs.declared.word.Kind.TheVariants as kinds;
ghost use Rattle.uc_print_laws.specs.Text.{written};
ghost use Rattle.uc_print_laws.specs.Printed.{Printed, ◌<+>◌, identifier, listed, sign};
ghost use Rattle.uc_print_laws.specs.Types.{printed_type};
ghost use Rattle.uc_print_laws.specs.Expressions.{printed_expr};
ghost use Rattle.uc_printer.specs.PrintStatementsParts.{loop_head};
ghost use Rattle.uc_print_laws.specs.Statements.{bound_words, labelled, variable_words};

use crate::put_expression;
use std::alloc::AllocError;
use uc_grammar::Kind;
use uc_print_laws::{Page, put_identifiers, put_name, put_sign, put_type};
use uc_syntax::{Expr, Identifier, Names, RangeBound, TypeExpr};

/// Puts a bound of `range`.
fn put_bound(page: &mut Page, bound: RangeBound) -> Result<(), AllocError>
    ensures { (names : List (List ℕ)) → OnOk result (page.new ≡ written names page.old (bound_words bound).words) }
{
    match bound {
        RangeBound::Number(_, has_minus, number) => {
            if has_minus {
                put_sign(page, Kind::Minus)?;
                put_sign(page, Kind::Number(number))?;
                return Ok(());
            }
            put_sign(page, Kind::Number(number))?;
            Ok(())
        }
        RangeBound::BitsLiteral(_, value, width) => put_sign(page, Kind::BvLit(value, width)),
    }
}

/// Puts a loop's variable, with its type where that is written.
#[tactic(auto, using(crate::proofs::StatementWords::variable_text))]
fn put_variable(
    page: &mut Page,
    names: &Names,
    variable: Identifier,
    ty: &Option<TypeExpr>,
) -> Result<(), AllocError>
    ensures { OnOk result (page.new ≡ written names.now page.old (variable_words variable ty.now).words) }
{
    match ty {
        None => put_name(page, names, variable.name),
        Some(ty) => {
            put_sign(page, Kind::LeftParen)?;
            put_name(page, names, variable.name)?;
            put_sign(page, Kind::Colon)?;
            put_type(page, names, ty)?;
            put_sign(page, Kind::RightParen)?;
            Ok(())
        }
    }
}

/// Puts a label, where there is one: whatever is put behind it is labelled.
fn put_label(page: &mut Page, names: &Names, label: Option<Identifier>) -> Result<(), AllocError>
    ensures { (x : Printed) → OnOk result (written names.now page.new x.words ≡ written names.now page.old (labelled label x).words) }
{
    match label {
        None => Ok(()),
        Some(label) => {
            put_name(page, names, label.name)?;
            put_sign(page, Kind::Colon)?;
            Ok(())
        }
    }
}

/// Puts an expression behind its label, where there is one, and a semicolon.
pub fn put_labelled(
    page: &mut Page,
    names: &Names,
    label: Option<Identifier>,
    expression: &Expr,
) -> Result<(), AllocError>
    ensures { OnOk result (page.new ≡ written names.now page.old (labelled label (printed_expr expression.now <+> sign kinds.Semicolon)).words) }
{
    put_label(page, names, label)?;
    put_expression(page, names, expression)?;
    put_sign(page, Kind::Semicolon)?;
    Ok(())
}

/// Puts names with their type, and a semicolon.
#[tactic(auto, using(crate::proofs::StatementWords::typed_names_text))]
pub fn put_typed_names(
    page: &mut Page,
    names: &Names,
    identifiers: &[Identifier],
    ty: &TypeExpr,
) -> Result<(), AllocError>
    ensures { OnOk result (page.new ≡ written names.now page.old (listed identifier identifiers.now <+> (sign kinds.Colon <+> (printed_type ty.now <+> sign kinds.Semicolon))).words) }
{
    put_identifiers(page, names, identifiers, Kind::Comma)?;
    put_sign(page, Kind::Colon)?;
    put_type(page, names, ty)?;
    put_sign(page, Kind::Semicolon)?;
    Ok(())
}

/// Puts what stands before the block of a loop.
#[tactic(auto, using(crate::proofs::StatementWords::loop_head_text))]
pub fn put_loop_head(
    page: &mut Page,
    names: &Names,
    variable: Identifier,
    ty: &Option<TypeExpr>,
    from: RangeBound,
    to: RangeBound,
) -> Result<(), AllocError>
    ensures { OnOk result (page.new ≡ written names.now page.old (loop_head variable ty.now from to).words) }
{
    put_sign(page, Kind::KwFor)?;
    put_variable(page, names, variable, ty)?;
    put_sign(page, Kind::KwIn)?;
    put_sign(page, Kind::Range(0))?;
    put_sign(page, Kind::LeftParen)?;
    put_bound(page, from)?;
    put_sign(page, Kind::Comma)?;
    put_bound(page, to)?;
    put_sign(page, Kind::RightParen)?;
    Ok(())
}
