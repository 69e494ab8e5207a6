//! The words of declarations.

ghost use Rattle.std.specs.Prelude.{◌≡◌, OnOk};
ghost use Rattle.uc_print_laws.specs.Text.{written};
ghost use Rattle.uc_print_laws.specs.Printed.{each, nowhere};
ghost use Rattle.uc_print_laws.specs.Declarations.{decl_words, variable_kind};
ghost use Rattle.uc_printer.specs.Parts.{formula, function_head, hyper_formula};
ghost use Rattle.uc_syntax.specs.declared.declaration.Decl.TheVariants as decls;

use crate::clauses::{put_bindings, put_procedure};
use crate::commands::put_commands;
use crate::{put_block, put_expression, put_labelled, put_typed_names};
use std::alloc::AllocError;
use uc_grammar::Kind;
use uc_print_laws::{Page, put_name, put_parameters, put_sign, put_type};
use uc_syntax::{
    Binding, Command, Decl, Expr, Identifier, Names, Parameter, TypeExpr, VariableKind,
};

fn variable_sign(kind: VariableKind) -> Kind
    ensures { result ≡ variable_kind kind }
{
    match kind {
        VariableKind::Variable => Kind::KwVar,
        VariableKind::Input => Kind::KwInput,
        VariableKind::Output => Kind::KwOutput,
        VariableKind::Constant => Kind::KwConst,
    }
}

/// Puts a name with its parameters and its type.
#[tactic(auto, using(crate::proofs::DeclarationWords::function_head_text))]
fn put_function_head(
    page: &mut Page,
    names: &Names,
    name: Identifier,
    parameters: &[Parameter<TypeExpr>],
    ty: &TypeExpr,
) -> Result<(), AllocError>
    ensures { OnOk result (page.new ≡ written names.now page.old (function_head name parameters.now ty.now).words) }
{
    put_name(page, names, name.name)?;
    put_sign(page, Kind::LeftParen)?;
    put_parameters(page, names, parameters)?;
    put_sign(page, Kind::RightParen)?;
    put_sign(page, Kind::Colon)?;
    put_type(page, names, ty)?;
    Ok(())
}

/// Puts a name with its formula, and a semicolon.
#[tactic(auto, using(crate::proofs::DeclarationWords::formula_text))]
fn put_formula(
    page: &mut Page,
    names: &Names,
    name: Identifier,
    expression: &Expr,
) -> Result<(), AllocError>
    ensures { OnOk result (page.new ≡ written names.now page.old (formula name expression.now).words) }
{
    put_name(page, names, name.name)?;
    put_sign(page, Kind::Colon)?;
    put_expression(page, names, expression)?;
    put_sign(page, Kind::Semicolon)?;
    Ok(())
}

/// Puts the number of copies of a hyper formula, the name and the formula.
fn put_hyper_formula(
    page: &mut Page,
    names: &Names,
    copies: u128,
    name: Identifier,
    expression: &Expr,
) -> Result<(), AllocError>
    ensures { OnOk result (page.new ≡ written names.now page.old (hyper_formula copies name expression.now).words) }
{
    put_sign(page, Kind::LeftBracket)?;
    put_sign(page, Kind::Number(copies))?;
    put_sign(page, Kind::RightBracket)?;
    put_formula(page, names, name, expression)?;
    Ok(())
}

fn put_type_alias(
    page: &mut Page,
    names: &Names,
    name: Identifier,
    ty: &TypeExpr,
) -> Result<(), AllocError>
    ensures { OnOk result (page.new ≡ written names.now page.old (decl_words (decls.TypeAlias nowhere name ty.now)).words) }
{
    put_sign(page, Kind::KwType)?;
    put_name(page, names, name.name)?;
    put_sign(page, Kind::Assign)?;
    put_type(page, names, ty)?;
    put_sign(page, Kind::Semicolon)?;
    Ok(())
}

fn put_opaque_type(page: &mut Page, names: &Names, name: Identifier) -> Result<(), AllocError>
    ensures { OnOk result (page.new ≡ written names.now page.old (decl_words (decls.OpaqueType nowhere name)).words) }
{
    put_sign(page, Kind::KwType)?;
    put_name(page, names, name.name)?;
    put_sign(page, Kind::Semicolon)?;
    Ok(())
}

fn put_type_import(page: &mut Page, names: &Names, source: Identifier) -> Result<(), AllocError>
    ensures { OnOk result (page.new ≡ written names.now page.old (decl_words (decls.TypeImport nowhere source)).words) }
{
    put_sign(page, Kind::KwType)?;
    put_sign(page, Kind::Star)?;
    put_sign(page, Kind::Assign)?;
    put_name(page, names, source.name)?;
    put_sign(page, Kind::Dot)?;
    put_sign(page, Kind::Star)?;
    put_sign(page, Kind::Semicolon)?;
    Ok(())
}

fn put_variables(
    page: &mut Page,
    names: &Names,
    kind: VariableKind,
    identifiers: &[Identifier],
    ty: &TypeExpr,
) -> Result<(), AllocError>
    ensures { OnOk result (page.new ≡ written names.now page.old (decl_words (decls.Variables nowhere kind identifiers.now ty.now)).words) }
{
    put_sign(page, variable_sign(kind))?;
    put_typed_names(page, names, identifiers, ty)?;
    Ok(())
}

fn put_function(
    page: &mut Page,
    names: &Names,
    name: Identifier,
    parameters: &[Parameter<TypeExpr>],
    ty: &TypeExpr,
) -> Result<(), AllocError>
    ensures { OnOk result (page.new ≡ written names.now page.old (decl_words (decls.Function nowhere name parameters.now ty.now)).words) }
{
    put_sign(page, Kind::KwFunction)?;
    put_function_head(page, names, name, parameters, ty)?;
    put_sign(page, Kind::Semicolon)?;
    Ok(())
}

fn put_define(
    page: &mut Page,
    names: &Names,
    name: Identifier,
    parameters: &[Parameter<TypeExpr>],
    ty: &TypeExpr,
    body: &Expr,
) -> Result<(), AllocError>
    ensures { OnOk result (page.new ≡ written names.now page.old (decl_words (decls.Define nowhere name parameters.now ty.now body.now)).words) }
{
    put_sign(page, Kind::KwDefine)?;
    put_function_head(page, names, name, parameters, ty)?;
    put_sign(page, Kind::Assign)?;
    put_expression(page, names, body)?;
    put_sign(page, Kind::Semicolon)?;
    Ok(())
}

fn put_instance(
    page: &mut Page,
    names: &Names,
    name: Identifier,
    source: Identifier,
    bindings: &[Binding],
) -> Result<(), AllocError>
    ensures { OnOk result (page.new ≡ written names.now page.old (decl_words (decls.Instance nowhere name source bindings.now)).words) }
{
    put_sign(page, Kind::KwInstance)?;
    put_name(page, names, name.name)?;
    put_sign(page, Kind::Colon)?;
    put_name(page, names, source.name)?;
    put_sign(page, Kind::LeftParen)?;
    put_bindings(page, names, bindings)?;
    put_sign(page, Kind::RightParen)?;
    put_sign(page, Kind::Semicolon)?;
    Ok(())
}

fn put_axiom(
    page: &mut Page,
    names: &Names,
    label: Option<Identifier>,
    expression: &Expr,
) -> Result<(), AllocError>
    ensures { OnOk result (page.new ≡ written names.now page.old (decl_words (decls.Axiom nowhere label expression.now)).words) }
{
    put_sign(page, Kind::KwAxiom)?;
    put_labelled(page, names, label, expression)?;
    Ok(())
}

fn put_control(page: &mut Page, names: &Names, commands: &[Command]) -> Result<(), AllocError>
    ensures { OnOk result (page.new ≡ written names.now page.old (decl_words (decls.Control nowhere commands.now)).words) }
{
    put_sign(page, Kind::KwControl)?;
    put_sign(page, Kind::LeftBrace)?;
    put_commands(page, names, commands)?;
    put_sign(page, Kind::RightBrace)?;
    Ok(())
}

fn put_declaration(page: &mut Page, names: &Names, declaration: &Decl) -> Result<(), AllocError>
    ensures { OnOk result (page.new ≡ written names.now page.old (decl_words declaration.now).words) }
{
    match declaration {
        Decl::OpaqueType(_, name) => put_opaque_type(page, names, *name),
        Decl::TypeAlias(_, name, ty) => put_type_alias(page, names, *name, ty),
        Decl::TypeImport(_, source) => put_type_import(page, names, *source),
        Decl::Variables(_, kind, identifiers, ty) => {
            put_variables(page, names, *kind, identifiers.as_slice(), ty)
        }
        Decl::Function(_, name, parameters, ty) => {
            put_function(page, names, *name, parameters.as_slice(), ty)
        }
        Decl::Define(_, name, parameters, ty, body) => {
            put_define(page, names, *name, parameters.as_slice(), ty, body)
        }
        Decl::Procedure(_, procedure) => {
            put_sign(page, Kind::KwProcedure)?;
            put_procedure(page, names, procedure)
        }
        Decl::Instance(_, name, source, bindings) => {
            put_instance(page, names, *name, *source, bindings.as_slice())
        }
        Decl::Init(_, block) => {
            put_sign(page, Kind::KwInit)?;
            put_block(page, names, block.as_slice())
        }
        Decl::Next(_, block) => {
            put_sign(page, Kind::KwNext)?;
            put_block(page, names, block.as_slice())
        }
        Decl::Invariant(_, name, expression) => {
            put_sign(page, Kind::KwInvariant)?;
            put_formula(page, names, *name, expression)
        }
        Decl::Axiom(_, label, expression) => put_axiom(page, names, *label, expression),
        Decl::Hyperinvariant(_, copies, name, expression) => {
            put_sign(page, Kind::KwHyperinvariant)?;
            put_hyper_formula(page, names, *copies, *name, expression)
        }
        Decl::Hyperaxiom(_, copies, name, expression) => {
            put_sign(page, Kind::KwHyperaxiom)?;
            put_hyper_formula(page, names, *copies, *name, expression)
        }
        Decl::Control(_, commands) => put_control(page, names, commands.as_slice()),
    }
}

/// Puts declarations, one after the other.
pub fn put_declarations(
    page: &mut Page,
    names: &Names,
    declarations: &[Decl],
) -> Result<(), AllocError>
    ensures { OnOk result (page.new ≡ written names.now page.old (each decl_words declarations.now).words) }
{
    'declarations: for declaration in declarations {
        put_declaration(page, names, declaration)?;
    }
    Ok(())
}
