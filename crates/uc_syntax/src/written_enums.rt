//! The labels of every enum that is written, in the order of the text.
//!
//! Each function adds to a list what the part of the design that it is given writes.

ghost use Rattle.std.specs.Prelude.{◌≡◌, ◌++◌, map, IfOk, OnOk};
ghost use Rattle.std.specs.List.{flat_map};
ghost use Rattle.uc_syntax.specs.WrittenTypes.{labels_of};
ghost use Rattle.uc_syntax.specs.Labels.{type_labels, optional_labels, stmt_labels, decl_labels, module_labels};

use crate::declaration::{Decl, Module};
use crate::place::Identifier;
use crate::statement::{Arm, Stmt};
use crate::type_expression::{Parameter, TypeExpr};
use std::alloc::{AllocError, Global};
use uc_items::Items;

fn names_of(alloc: Global, labels: &[Identifier]) -> Result<Items<u32>, AllocError>
    ensures { IfOk result (λ names. names ≡ map (λ l. l.name) labels.now) }
{
    let mut names = Items::new(alloc);
    for label in labels {
        names.push(label.name)?;
    }
    Ok(names)
}

#[cycle(add_types)]
#[tactic(auto, using(crate::proofs::Labels::labels_enumeration, crate::proofs::Labels::labels_record))]
fn add_type(alloc: Global, ty: &TypeExpr, enums: &mut Items<Items<u32>>) -> Result<(), AllocError>
    ensures { OnOk result (enums.new ≡ enums.old ++ type_labels ty.now) }
{
    match ty {
        TypeExpr::Boolean(_) => Ok(()),
        TypeExpr::Integer(_) => Ok(()),
        TypeExpr::Bits(_, _) => Ok(()),
        TypeExpr::Enumeration(_, labels) => {
            let labels = names_of(alloc, labels.as_slice())?;
            enums.push(labels)?;
            Ok(())
        }
        TypeExpr::Record(_, fields) => {
            add_parameters(alloc, fields.as_slice(), enums)?;
            Ok(())
        }
        TypeExpr::Array(_, index, element) => {
            add_type(alloc, index.get(), enums)?;
            add_type(alloc, element.get(), enums)?;
            Ok(())
        }
        TypeExpr::Named(_, _) => Ok(()),
        TypeExpr::OfModule(_, _, _) => Ok(()),
    }
}

#[cycle(add_types)]
#[tactic(auto, using(crate::proofs::Added::added_begin, crate::proofs::Added::added_more, crate::proofs::Added::added_end))]
fn add_parameters(
    alloc: Global,
    parameters: &[Parameter<TypeExpr>],
    enums: &mut Items<Items<u32>>,
) -> Result<(), AllocError>
    ensures { OnOk result (enums.new ≡ enums.old ++ flat_map (λ p. type_labels p.ty) parameters.now) }
{
    for parameter in parameters {
        add_type(alloc, &parameter.ty, enums)?;
    }
    Ok(())
}

fn add_optional_type(
    alloc: Global,
    ty: &Option<TypeExpr>,
    enums: &mut Items<Items<u32>>,
) -> Result<(), AllocError>
    ensures { OnOk result (enums.new ≡ enums.old ++ optional_labels ty.now) }
{
    match ty {
        None => Ok(()),
        Some(ty) => {
            add_type(alloc, ty, enums)?;
            Ok(())
        }
    }
}

#[cycle(add_statements)]
#[tactic(auto, using(crate::proofs::Labels::labels_local, crate::proofs::Labels::labels_block))]
fn add_statement(
    alloc: Global,
    statement: &Stmt,
    enums: &mut Items<Items<u32>>,
) -> Result<(), AllocError>
    ensures { OnOk result (enums.new ≡ enums.old ++ stmt_labels statement.now) }
{
    match statement {
        Stmt::Local(_, _, ty) => {
            add_type(alloc, ty, enums)?;
            Ok(())
        }
        Stmt::Skip(_) => Ok(()),
        Stmt::Block(_, block) => {
            add_block(alloc, block.as_slice(), enums)?;
            Ok(())
        }
        Stmt::Assert(_, _, _) => Ok(()),
        Stmt::Assume(_, _) => Ok(()),
        Stmt::Havoc(_, _, _) => Ok(()),
        Stmt::Assign(_, _, _) => Ok(()),
        Stmt::If(_, arms, otherwise) => {
            add_arms(alloc, arms.as_slice(), enums)?;
            match otherwise {
                None => Ok(()),
                Some(block) => {
                    add_block(alloc, block.as_slice(), enums)?;
                    Ok(())
                }
            }
        }
        Stmt::Case(_, arms, otherwise) => {
            add_arms(alloc, arms.as_slice(), enums)?;
            match otherwise {
                None => Ok(()),
                Some(block) => {
                    add_block(alloc, block.as_slice(), enums)?;
                    Ok(())
                }
            }
        }
        Stmt::For(_, _, ty, _, _, body) => {
            add_optional_type(alloc, ty, enums)?;
            add_block(alloc, body.as_slice(), enums)?;
            Ok(())
        }
        Stmt::Call(_, _, _, _) => Ok(()),
        Stmt::Next(_, _) => Ok(()),
    }
}

#[cycle(add_statements)]
#[tactic(auto, using(crate::proofs::Added::added_begin, crate::proofs::Added::added_more, crate::proofs::Added::added_end))]
fn add_block(alloc: Global, block: &[Stmt], enums: &mut Items<Items<u32>>) -> Result<(), AllocError>
    ensures { OnOk result (enums.new ≡ enums.old ++ flat_map stmt_labels block.now) }
{
    for statement in block {
        add_statement(alloc, statement, enums)?;
    }
    Ok(())
}

#[cycle(add_statements)]
#[tactic(auto, using(crate::proofs::Added::added_begin, crate::proofs::Added::added_more, crate::proofs::Added::added_end))]
fn add_arms(
    alloc: Global,
    arms: &[Arm<Stmt>],
    enums: &mut Items<Items<u32>>,
) -> Result<(), AllocError>
    ensures { OnOk result (enums.new ≡ enums.old ++ flat_map (λ a. flat_map stmt_labels a.body) arms.now) }
{
    for arm in arms {
        let block = arm.body.as_slice();
        for statement in block {
            add_statement(alloc, statement, enums)?;
        }
    }
    Ok(())
}

#[tactic(auto, using(crate::proofs::Labels::labels_alias, crate::proofs::Labels::labels_variables, crate::proofs::Labels::labels_init, crate::proofs::Labels::labels_next_block))]
fn add_declaration(
    alloc: Global,
    declaration: &Decl,
    enums: &mut Items<Items<u32>>,
) -> Result<(), AllocError>
    ensures { OnOk result (enums.new ≡ enums.old ++ decl_labels declaration.now) }
{
    match declaration {
        Decl::TypeAlias(_, _, ty) => {
            add_type(alloc, ty, enums)?;
            Ok(())
        }
        Decl::Variables(_, _, _, ty) => {
            add_type(alloc, ty, enums)?;
            Ok(())
        }
        Decl::Function(_, _, parameters, ty) => {
            add_parameters(alloc, parameters.as_slice(), enums)?;
            add_type(alloc, ty, enums)?;
            Ok(())
        }
        Decl::Define(_, _, parameters, ty, _) => {
            add_parameters(alloc, parameters.as_slice(), enums)?;
            add_type(alloc, ty, enums)?;
            Ok(())
        }
        Decl::Procedure(_, procedure) => {
            add_parameters(alloc, procedure.parameters.as_slice(), enums)?;
            add_parameters(alloc, procedure.results.as_slice(), enums)?;
            add_block(alloc, procedure.body.as_slice(), enums)?;
            Ok(())
        }
        Decl::Init(_, block) => {
            add_block(alloc, block.as_slice(), enums)?;
            Ok(())
        }
        Decl::Next(_, block) => {
            add_block(alloc, block.as_slice(), enums)?;
            Ok(())
        }
        _ => Ok(()),
    }
}

#[tactic(auto, using(crate::proofs::Added::added_begin, crate::proofs::Added::added_more, crate::proofs::Added::added_end), unfolding(crate::specs::Labels::module_labels))]
fn add_module(
    alloc: Global,
    whole: &Module,
    enums: &mut Items<Items<u32>>,
) -> Result<(), AllocError>
    ensures { OnOk result (enums.new ≡ enums.old ++ module_labels whole.now) }
{
    for declaration in whole.decls.as_slice() {
        add_declaration(alloc, declaration, enums)?;
    }
    Ok(())
}

/// The labels of every enum of a design: an enum's number is its place in this list.
#[tactic(auto, using(crate::proofs::Added::added_begin, crate::proofs::Added::added_more, crate::proofs::Added::added_end))]
pub(crate) fn labels_of(alloc: Global, modules: &[Module]) -> Result<Items<Items<u32>>, AllocError>
    ensures { IfOk result (λ ls. ls ≡ labels_of modules.now) }
{
    let mut enums = Items::new(alloc);
    for module in modules {
        add_module(alloc, module, &mut enums)?;
    }
    Ok(enums)
}
