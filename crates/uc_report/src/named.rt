//! The names that stand at places of code.

ghost use Rattle.std.specs.Prelude.{◌≡◌, ◌++◌, OnOk, IfOk};
ghost use Rattle.std.specs.List.{flat_map};
ghost use Rattle.uc_report.specs.Described.{described};
ghost use Rattle.uc_report.specs.Named.{label_named, named_in, named_in_block, named_in_decl, named_places};

use crate::design::DesignView;
use std::alloc::{AllocError, Global};
use uc_syntax::{Decl, Identifier, Place, Stmt};

/// The place of a word `assert` or `call`, and the name that it gives.
pub type Named = (Place, u32);

/// The names in the code of all modules.
#[tactic(auto, unfolding(crate::specs::Named::named_places))]
pub fn named_places(alloc: Global, d: &DesignView<'_>) -> Result<Vec<Named>, AllocError>
    ensures { IfOk result (λ named. named.items ≡ named_places (described d.now)) }
{
    let mut named = Vec::new(alloc);
    for module in d.modules {
        add_named_in_decls(&mut named, module.decls.as_slice())?;
    }
    Ok(named)
}

fn add_named_in_decls(named: &mut Vec<Named>, decls: &[Decl]) -> Result<(), AllocError>
    ensures { OnOk result (named.new.items ≡ named.old.items ++ flat_map named_in_decl decls.now) }
{
    for decl in decls {
        match decl {
            Decl::Init(_, block) => add_named(named, block.as_slice())?,
            Decl::Next(_, block) => add_named(named, block.as_slice())?,
            Decl::Procedure(_, procedure) => add_named(named, procedure.body.as_slice())?,
            _ => {}
        }
    }
    Ok(())
}

#[cycle(named)]
fn add_named(named: &mut Vec<Named>, block: &[Stmt]) -> Result<(), AllocError>
    ensures { OnOk result (named.new.items ≡ named.old.items ++ named_in_block block.now) }
{
    for statement in block {
        add_named_in(named, statement)?;
    }
    Ok(())
}

/// Adds the names in a statement, with the statements inside it.
#[cycle(named)]
#[tactic(auto, using(crate::proofs::NamedForms::named_forms))]
fn add_named_in(named: &mut Vec<Named>, statement: &Stmt) -> Result<(), AllocError>
    ensures { OnOk result (named.new.items ≡ named.old.items ++ named_in statement.now) }
{
    match statement {
        Stmt::Assert(place, label, _) => add_label(named, *place, label),
        Stmt::Call(place, _, procedure, _) => {
            named.push((*place, procedure.name))?;
            Ok(())
        }
        Stmt::Block(_, block) => add_named(named, block.as_slice()),
        Stmt::For(_, _, _, _, _, block) => add_named(named, block.as_slice()),
        Stmt::If(_, arms, otherwise) | Stmt::Case(_, arms, otherwise) => {
            for arm in arms.as_slice() {
                add_named(named, arm.body.as_slice())?;
            }
            match otherwise {
                Some(block) => add_named(named, block.as_slice()),
                None => Ok(()),
            }
        }
        Stmt::Local(..) => Ok(()),
        Stmt::Skip(..) => Ok(()),
        Stmt::Assume(..) => Ok(()),
        Stmt::Havoc(..) => Ok(()),
        Stmt::Assign(..) => Ok(()),
        Stmt::Next(..) => Ok(()),
    }
}

fn add_label(
    named: &mut Vec<Named>,
    place: Place,
    label: &Option<Identifier>,
) -> Result<(), AllocError>
    ensures { OnOk result (named.new.items ≡ named.old.items ++ label_named place label.now) }
{
    match label {
        Some(label) => {
            named.push((place, label.name))?;
            Ok(())
        }
        None => Ok(()),
    }
}
