//! The variables, inputs, outputs and constants that a module declares, for all names at once.

ghost use Rattle.std.specs.Prelude.{nat_eq, IfOk, OnOk};
ghost use Rattle.indexmap.specs.IndexMap.{get};
ghost use Rattle.uc_meaning.specs.Lookup.{some_if, is_named, names_one, variable_in, variable_of};
ghost use Rattle.uc_lookup.specs.Parts.{variable_parts};
ghost use Rattle.uc_flat_making.specs.Firsts.{Enters, Gives};

use std::alloc::{AllocError, Global};
use uc_lookup::Variable;
use uc_names::Firsts;
use uc_syntax::{Decl, Identifier, Module};

/// The first variable, input, output or constant of each name.
#[tactic(auto, using(crate::proofs::Entered::given_begin, crate::proofs::Entered::given_more, crate::proofs::Entered::given_end))]
pub(crate) fn variables_of<'a>(
    alloc: Global,
    code: &'a Module,
) -> Result<Firsts<Variable<'a>>, AllocError>
    ensures { IfOk result (λ t. Gives variable_parts (variable_of code.now) (get nat_eq t.things)) }
{
    let mut variables = Firsts::new(alloc);
    for decl in code.decls.as_slice() {
        enter_declared(decl, &mut variables)?;
    }
    Ok(variables)
}

fn enter_declared<'a>(
    decl: &'a Decl,
    variables: &mut Firsts<Variable<'a>>,
) -> Result<(), AllocError>
    ensures { OnOk result (Enters variable_parts (λ x. variable_in x decl.now) (get nat_eq variables.old.things) (get nat_eq variables.new.things)) }
{
    match decl {
        Decl::Variables(_, kind, names, ty) => {
            enter_names(names.as_slice(), Variable { kind: *kind, ty }, variables)
        }
        _ => Ok(()),
    }
}

/// Enters a variable for each of some names.
#[tactic(auto, using(crate::proofs::Entered::entered_begin, crate::proofs::Entered::entered_more))]
fn enter_names<'a>(
    names: &[Identifier],
    variable: Variable<'a>,
    variables: &mut Firsts<Variable<'a>>,
) -> Result<(), AllocError>
    ensures { OnOk result (Enters variable_parts (λ x. some_if (names_one x names.now) (variable_parts variable.entry)) (get nat_eq variables.old.things) (get nat_eq variables.new.things)) }
{
    for identifier in names {
        enter_name(identifier, variable, variables)?;
    }
    Ok(())
}

#[tactic(auto, using(crate::proofs::Entered::one_enters))]
fn enter_name<'a>(
    identifier: &Identifier,
    variable: Variable<'a>,
    variables: &mut Firsts<Variable<'a>>,
) -> Result<(), AllocError>
    ensures { OnOk result (Enters variable_parts (λ x. some_if (is_named x identifier.now) (variable_parts variable.entry)) (get nat_eq variables.old.things) (get nat_eq variables.new.things)) }
{
    variables.enter(identifier.name, Some(variable))?;
    Ok(())
}
