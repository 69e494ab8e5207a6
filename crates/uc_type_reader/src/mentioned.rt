//! The enums that a module writes, and the modules that its types name, in the order of the text.
//!
//! Each function adds to what was gathered what the part of the module that it is given writes.

ghost use Rattle.std.specs.Prelude.{◌≡◌, [], ◌∷◌, map, IfOk, OnOk};
ghost use Rattle.std.specs.List.{flat_map};
ghost use Rattle.uc_syntax.specs.WrittenTypes.{types_in, types_in_option, types_of_parameters, types_of_module};
ghost use Rattle.uc_type_reader.specs.Mentioned.{Gains, IsMentioned, types_written, types_in_arm, types_in_else};

use std::alloc::{AllocError, Global};
use uc_items::Items;
use uc_syntax::{Arm, Decl, Identifier, Module, Parameter, Place, Stmt, TypeExpr};

/// An enum as it is written: the place of its word `enum`, and its labels.
#[derive(Drop)]
pub struct WrittenEnum {
    pub place: Place,
    pub labels: Items<u32>,
}

/// Enums, and the names of modules.
#[derive(Drop)]
pub struct Mentioned {
    pub enums: Items<WrittenEnum>,
    pub modules: Items<u32>,
}

/// What a module mentions in its types.
#[tactic(auto, using(crate::proofs::Gained::gains_begin, crate::proofs::Gained::gains_more, crate::proofs::Gained::gains_end))]
pub fn mentioned_in(alloc: Global, code: &Module) -> Result<Mentioned, AllocError>
    ensures { IfOk result (λ m. IsMentioned code.now m) }
{
    let mut found = Mentioned {
        enums: Items::new(alloc),
        modules: Items::new(alloc),
    };
    for declaration in code.decls.as_slice() {
        add_declaration(alloc, declaration, &mut found)?;
    }
    Ok(found)
}

fn names_of(alloc: Global, labels: &[Identifier]) -> Result<Items<u32>, AllocError>
    ensures { IfOk result (λ names. names ≡ map (λ l. l.name) labels.now) }
{
    let mut names = Items::new(alloc);
    for label in labels {
        names.push(label.name)?;
    }
    Ok(names)
}

#[cycle(add_types)]
fn add_type(alloc: Global, ty: &TypeExpr, found: &mut Mentioned) -> Result<(), AllocError>
    ensures { OnOk result (Gains found.old found.new (ty.now ∷ [])) }
{
    match ty {
        TypeExpr::Boolean(_) => Ok(()),
        TypeExpr::Integer(_) => Ok(()),
        TypeExpr::Bits(_, _) => Ok(()),
        TypeExpr::Enumeration(place, labels) => {
            let labels = names_of(alloc, labels.as_slice())?;
            found.enums.push(WrittenEnum {
                place: *place,
                labels,
            })?;
            Ok(())
        }
        TypeExpr::Record(_, fields) => {
            add_parameters(alloc, fields.as_slice(), found)?;
            Ok(())
        }
        TypeExpr::Array(_, index, element) => {
            add_type(alloc, index.get(), found)?;
            add_type(alloc, element.get(), found)?;
            Ok(())
        }
        TypeExpr::Named(_, _) => Ok(()),
        TypeExpr::OfModule(_, module, _) => {
            found.modules.push(*module)?;
            Ok(())
        }
    }
}

#[cycle(add_types)]
#[tactic(auto, using(crate::proofs::Gained::gains_begin, crate::proofs::Gained::gains_more, crate::proofs::Gained::gains_singles))]
fn add_parameters(
    alloc: Global,
    parameters: &[Parameter<TypeExpr>],
    found: &mut Mentioned,
) -> Result<(), AllocError>
    ensures { OnOk result (Gains found.old found.new (types_of_parameters parameters.now)) }
{
    for parameter in parameters {
        add_type(alloc, &parameter.ty, found)?;
    }
    Ok(())
}

#[tactic(auto, using(crate::proofs::Gained::gains_same))]
fn add_optional_type(
    alloc: Global,
    ty: &Option<TypeExpr>,
    found: &mut Mentioned,
) -> Result<(), AllocError>
    ensures { OnOk result (Gains found.old found.new (types_in_option ty.now)) }
{
    match ty {
        None => Ok(()),
        Some(ty) => {
            add_type(alloc, ty, found)?;
            Ok(())
        }
    }
}

#[cycle(add_statements)]
fn add_statement(alloc: Global, statement: &Stmt, found: &mut Mentioned) -> Result<(), AllocError>
    ensures { OnOk result (Gains found.old found.new (types_written statement.now)) }
{
    match statement {
        Stmt::Local(_, _, ty) => add_type(alloc, ty, found),
        Stmt::Skip(_) => Ok(()),
        Stmt::Block(_, block) => add_block(alloc, block.as_slice(), found),
        Stmt::Assert(_, _, _) => Ok(()),
        Stmt::Assume(_, _) => Ok(()),
        Stmt::Havoc(_, _, _) => Ok(()),
        Stmt::Assign(_, _, _) => Ok(()),
        Stmt::If(_, arms, otherwise) => {
            add_arms(alloc, arms.as_slice(), found)?;
            add_otherwise(alloc, otherwise, found)
        }
        Stmt::Case(_, arms, otherwise) => {
            add_arms(alloc, arms.as_slice(), found)?;
            add_otherwise(alloc, otherwise, found)
        }
        Stmt::For(_, _, ty, _, _, body) => {
            add_optional_type(alloc, ty, found)?;
            add_block(alloc, body.as_slice(), found)
        }
        Stmt::Call(_, _, _, _) => Ok(()),
        Stmt::Next(_, _) => Ok(()),
    }
}

#[cycle(add_statements)]
fn add_otherwise(
    alloc: Global,
    otherwise: &Option<Items<Stmt>>,
    found: &mut Mentioned,
) -> Result<(), AllocError>
    ensures { OnOk result (Gains found.old found.new (types_in_else otherwise.now)) }
{
    match otherwise {
        None => Ok(()),
        Some(block) => add_block(alloc, block.as_slice(), found),
    }
}

#[cycle(add_statements)]
#[tactic(auto, using(crate::proofs::Gained::gains_begin, crate::proofs::Gained::gains_more, crate::proofs::Gained::gains_end))]
fn add_block(alloc: Global, block: &[Stmt], found: &mut Mentioned) -> Result<(), AllocError>
    ensures { OnOk result (Gains found.old found.new (flat_map types_written block.now)) }
{
    for statement in block {
        add_statement(alloc, statement, found)?;
    }
    Ok(())
}

#[cycle(add_statements)]
#[tactic(auto, using(crate::proofs::Gained::gains_begin, crate::proofs::Gained::gains_more, crate::proofs::Gained::gains_end))]
fn add_arms(alloc: Global, arms: &[Arm<Stmt>], found: &mut Mentioned) -> Result<(), AllocError>
    ensures { OnOk result (Gains found.old found.new (flat_map types_in_arm arms.now)) }
{
    for arm in arms {
        add_block(alloc, arm.body.as_slice(), found)?;
    }
    Ok(())
}

fn add_declaration(
    alloc: Global,
    declaration: &Decl,
    found: &mut Mentioned,
) -> Result<(), AllocError>
    ensures { OnOk result (Gains found.old found.new (types_in declaration.now)) }
{
    match declaration {
        Decl::TypeAlias(_, _, ty) => add_type(alloc, ty, found),
        Decl::Variables(_, _, _, ty) => add_type(alloc, ty, found),
        Decl::Function(_, _, parameters, ty) => {
            add_parameters(alloc, parameters.as_slice(), found)?;
            add_type(alloc, ty, found)
        }
        Decl::Define(_, _, parameters, ty, _) => {
            add_parameters(alloc, parameters.as_slice(), found)?;
            add_type(alloc, ty, found)
        }
        Decl::Procedure(_, procedure) => {
            add_parameters(alloc, procedure.parameters.as_slice(), found)?;
            add_parameters(alloc, procedure.results.as_slice(), found)?;
            add_block(alloc, procedure.body.as_slice(), found)
        }
        Decl::Init(_, block) => add_block(alloc, block.as_slice(), found),
        Decl::Next(_, block) => add_block(alloc, block.as_slice(), found),
        _ => Ok(()),
    }
}
