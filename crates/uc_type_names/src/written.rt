//! The types that a declaration writes.
//!
//! Each function adds to a list what the part that it is given writes.

ghost use Rattle.std.specs.Prelude.{◌≡◌, ◌∷◌, ◌++◌, [], IfOk, OnOk};
ghost use Rattle.std.specs.List.{flat_map};
ghost use Rattle.uc_syntax.specs.WrittenTypes.{types_in, types_of_parameters};
ghost use Rattle.uc_type_names.specs.Lent.{lent, types_by, types_in_arm};

use std::alloc::{AllocError, Global};
use uc_items::Items;
use uc_syntax::{Arm, Decl, Parameter, Stmt, TypeExpr};

fn push<'a>(ty: &'a TypeExpr, types: &mut Items<&'a TypeExpr>) -> Result<(), AllocError>
    ensures { OnOk result (lent types.new ≡ lent types.old ++ ty.now ∷ []) }
{
    types.push(ty)?;
    Ok(())
}

#[cycle(add_statements)]
fn add_statement<'a>(statement: &'a Stmt, types: &mut Items<&'a TypeExpr>) -> Result<(), AllocError>
    ensures { OnOk result (lent types.new ≡ lent types.old ++ types_by statement.now) }
{
    match statement {
        Stmt::Local(_, _, ty) => {
            push(ty, types)?;
            Ok(())
        }
        Stmt::Skip(_) => Ok(()),
        Stmt::Block(_, block) => {
            add_block(block.as_slice(), types)?;
            Ok(())
        }
        Stmt::Assert(_, _, _) => Ok(()),
        Stmt::Assume(_, _) => Ok(()),
        Stmt::Havoc(_, _, _) => Ok(()),
        Stmt::Assign(_, _, _) => Ok(()),
        Stmt::If(_, arms, otherwise) => {
            add_arms(arms.as_slice(), types)?;
            match otherwise {
                None => Ok(()),
                Some(block) => {
                    add_block(block.as_slice(), types)?;
                    Ok(())
                }
            }
        }
        Stmt::Case(_, arms, otherwise) => {
            add_arms(arms.as_slice(), types)?;
            match otherwise {
                None => Ok(()),
                Some(block) => {
                    add_block(block.as_slice(), types)?;
                    Ok(())
                }
            }
        }
        Stmt::For(_, _, ty, _, _, body) => match ty {
            None => {
                add_block(body.as_slice(), types)?;
                Ok(())
            }
            Some(ty) => {
                push(ty, types)?;
                add_block(body.as_slice(), types)?;
                Ok(())
            }
        },
        Stmt::Call(_, _, _, _) => Ok(()),
        Stmt::Next(_, _) => Ok(()),
    }
}

#[cycle(add_statements)]
#[tactic(auto, using(uc_syntax::proofs::Added::added_begin, uc_syntax::proofs::Added::added_more, uc_syntax::proofs::Added::added_end))]
fn add_block<'a>(block: &'a [Stmt], types: &mut Items<&'a TypeExpr>) -> Result<(), AllocError>
    ensures { OnOk result (lent types.new ≡ lent types.old ++ flat_map types_by block.now) }
{
    for statement in block {
        add_statement(statement, types)?;
    }
    Ok(())
}

#[cycle(add_statements)]
#[tactic(auto, using(uc_syntax::proofs::Added::added_begin, uc_syntax::proofs::Added::added_more, uc_syntax::proofs::Added::added_end))]
fn add_arms<'a>(arms: &'a [Arm<Stmt>], types: &mut Items<&'a TypeExpr>) -> Result<(), AllocError>
    ensures { OnOk result (lent types.new ≡ lent types.old ++ flat_map types_in_arm arms.now) }
{
    for arm in arms {
        let block = arm.body.as_slice();
        for statement in block {
            add_statement(statement, types)?;
        }
    }
    Ok(())
}

#[tactic(auto, using(uc_syntax::proofs::Added::added_begin, uc_syntax::proofs::Added::added_more, uc_syntax::proofs::Added::added_end))]
fn add_parameters<'a>(
    parameters: &'a [Parameter<TypeExpr>],
    types: &mut Items<&'a TypeExpr>,
) -> Result<(), AllocError>
    ensures { OnOk result (lent types.new ≡ lent types.old ++ types_of_parameters parameters.now) }
{
    for parameter in parameters {
        push(&parameter.ty, types)?;
    }
    Ok(())
}

fn add_declaration<'a>(
    declaration: &'a Decl,
    types: &mut Items<&'a TypeExpr>,
) -> Result<(), AllocError>
    ensures { OnOk result (lent types.new ≡ lent types.old ++ types_in declaration.now) }
{
    match declaration {
        Decl::TypeAlias(_, _, ty) => {
            push(ty, types)?;
            Ok(())
        }
        Decl::Variables(_, _, _, ty) => {
            push(ty, types)?;
            Ok(())
        }
        Decl::Function(_, _, parameters, ty) => {
            add_parameters(parameters.as_slice(), types)?;
            push(ty, types)?;
            Ok(())
        }
        Decl::Define(_, _, parameters, ty, _) => {
            add_parameters(parameters.as_slice(), types)?;
            push(ty, types)?;
            Ok(())
        }
        Decl::Procedure(_, procedure) => {
            add_parameters(procedure.parameters.as_slice(), types)?;
            add_parameters(procedure.results.as_slice(), types)?;
            add_block(procedure.body.as_slice(), types)?;
            Ok(())
        }
        Decl::Init(_, block) => {
            add_block(block.as_slice(), types)?;
            Ok(())
        }
        Decl::Next(_, block) => {
            add_block(block.as_slice(), types)?;
            Ok(())
        }
        _ => Ok(()),
    }
}

/// The types that a declaration writes, also inside its blocks.
pub fn types_in(alloc: Global, declaration: &Decl) -> Result<Items<&TypeExpr>, AllocError>
    ensures { IfOk result (λ ts. lent ts ≡ types_in declaration.now) }
{
    let mut types = Items::new(alloc);
    add_declaration(declaration, &mut types)?;
    Ok(types)
}
