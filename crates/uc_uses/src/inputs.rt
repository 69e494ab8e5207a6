//! The inputs of a module by their names.

ghost use Rattle.std.specs.Prelude.{◌≡◌, ℕ, Some, nat_eq, IfOk, OnOk};
ghost use Rattle.indexmap.specs.IndexMap.{get};
ghost use Rattle.uc_syntax.specs.declared.type_expression.TypeExpr.{TypeExpr};
ghost use Rattle.uc_meaning.specs.Lookup.{names_one, or_else};
ghost use Rattle.uc_rules.specs.Names.{only_if};
ghost use Rattle.uc_order_rules.specs.Roots.{is_input};
ghost use Rattle.uc_uses.specs.Inputs.{KnowsInputs, input_said};

use std::alloc::{AllocError, Global};
use uc_names::Firsts;
use uc_syntax::{Decl, Identifier, VariableKind};

/// For each name whether it is an input, by the first declaration of a variable of the name.
pub(crate) fn inputs_of(alloc: Global, declarations: &[Decl]) -> Result<Firsts<bool>, AllocError>
    ensures { IfOk result (λ t. KnowsInputs declarations.now t) }
{
    let mut inputs = Firsts::new(alloc);
    for declaration in declarations {
        enter_declared(declaration, &mut inputs)?;
    }
    Ok(inputs)
}

fn enter_declared(declaration: &Decl, inputs: &mut Firsts<bool>) -> Result<(), AllocError>
    ensures { OnOk result ((x : ℕ) → get nat_eq inputs.new.things x ≡ or_else (get nat_eq inputs.old.things x) (input_said x declaration.now)) }
{
    match declaration {
        Decl::Variables(_, kind, names, _) => {
            enter_names(names.as_slice(), is_input(*kind), inputs)?;
            Ok(())
        }
        _ => Ok(()),
    }
}

fn enter_names(
    names: &[Identifier],
    flag: bool,
    inputs: &mut Firsts<bool>,
) -> Result<(), AllocError>
    ensures { OnOk result ((x : ℕ) → get nat_eq inputs.new.things x ≡ or_else (get nat_eq inputs.old.things x) (only_if (names_one x names.now) (Some flag))) }
{
    for identifier in names {
        inputs.enter(identifier.name, Some(flag))?;
    }
    Ok(())
}

fn is_input(kind: VariableKind) -> bool
    ensures { (type : TypeExpr) → result ≡ is_input (Some (kind, type)) }
{
    match kind {
        VariableKind::Input => true,
        VariableKind::Variable => false,
        VariableKind::Output => false,
        VariableKind::Constant => false,
    }
}
