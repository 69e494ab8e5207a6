//! The words of types.

ghost use Rattle.std.specs.Prelude.{◌≡◌, OnOk};
ghost use Rattle.uc_print_laws.specs.Printed.{identifier, joined};
ghost use Rattle.uc_print_laws.specs.Types.{printed_type};
ghost use Rattle.uc_print_laws.specs.Declarations.{parameter_words};
ghost use Rattle.uc_print_laws.specs.Text.{written};
ghost use Rattle.uc_grammar.specs.declared.word.Kind.TheVariants.{Comma};

use crate::page::Page;
use crate::words::{put_name, put_sign};
use std::alloc::AllocError;
use uc_grammar::Kind;
use uc_syntax::{Identifier, Names, Parameter, TypeExpr};

/// Puts names with a sign between neighbours.
pub fn put_identifiers(
    page: &mut Page,
    names: &Names,
    identifiers: &[Identifier],
    sign: Kind,
) -> Result<(), AllocError>
    ensures { OnOk result (page.new ≡ written names.now page.old (joined sign identifier identifiers.now).words) }
{
    let Some((first, rest)) = identifiers.split_first() else {
        return Ok(());
    };
    put_name(page, names, first.name)?;
    'rest: for one in rest {
        put_sign(page, sign)?;
        put_name(page, names, one.name)?;
    }
    Ok(())
}

/// Puts names with their types, with commas between neighbours.
#[cycle(print_types)]
pub fn put_parameters(
    page: &mut Page,
    names: &Names,
    parameters: &[Parameter<TypeExpr>],
) -> Result<(), AllocError>
    ensures { OnOk result (page.new ≡ written names.now page.old (joined Comma parameter_words parameters.now).words) }
{
    let Some((first, rest)) = parameters.split_first() else {
        return Ok(());
    };
    put_name(page, names, first.identifier.name)?;
    put_sign(page, Kind::Colon)?;
    put_type(page, names, &first.ty)?;
    'rest: for one in rest {
        put_sign(page, Kind::Comma)?;
        put_name(page, names, one.identifier.name)?;
        put_sign(page, Kind::Colon)?;
        put_type(page, names, &one.ty)?;
    }
    Ok(())
}

/// Puts a type.
#[cycle(print_types)]
#[tactic(auto, using(crate::proofs::TypeWords::enumeration_text, crate::proofs::TypeWords::record_text, crate::proofs::TypeWords::array_text))]
pub fn put_type(page: &mut Page, names: &Names, ty: &TypeExpr) -> Result<(), AllocError>
    ensures { OnOk result (page.new ≡ written names.now page.old (printed_type ty.now).words) }
{
    match ty {
        TypeExpr::Boolean(_) => put_sign(page, Kind::KwBoolean),
        TypeExpr::Integer(_) => put_sign(page, Kind::KwInteger),
        TypeExpr::Bits(_, width) => put_sign(page, Kind::BvType(*width)),
        TypeExpr::Enumeration(_, labels) => {
            put_sign(page, Kind::KwEnum)?;
            put_sign(page, Kind::LeftBrace)?;
            put_identifiers(page, names, labels.as_slice(), Kind::Comma)?;
            put_sign(page, Kind::RightBrace)?;
            Ok(())
        }
        TypeExpr::Record(_, fields) => {
            put_sign(page, Kind::KwRecord)?;
            put_sign(page, Kind::LeftBrace)?;
            put_parameters(page, names, fields.as_slice())?;
            put_sign(page, Kind::RightBrace)?;
            Ok(())
        }
        TypeExpr::Array(_, index, element) => {
            put_sign(page, Kind::LeftBracket)?;
            put_type(page, names, index.get())?;
            put_sign(page, Kind::RightBracket)?;
            put_type(page, names, element.get())?;
            Ok(())
        }
        TypeExpr::Named(_, name) => put_name(page, names, *name),
        TypeExpr::OfModule(_, module, name) => {
            put_name(page, names, *module)?;
            put_sign(page, Kind::Dot)?;
            put_name(page, names, name.name)
        }
    }
}
