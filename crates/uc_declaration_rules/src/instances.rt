//! Instances.

ghost use Rattle.std.specs.Prelude.{◌≡◌, IfOk, OnOk};
ghost use Rattle.std.specs.List.{flat_map, list_all};
ghost use Rattle.std.specs.Option.{option_map};
ghost use Rattle.uc_declaration_rules.specs.Judging.{KnowsBindings, are_known, judged_and_bound, missing_faults};
ghost use Rattle.uc_names.specs.Senses.{module_in};
ghost use Rattle.uc_rules.specs.Declarations.{in_module, inputs_in, instance_faults};
ghost use Rattle.uc_rules.specs.Faults.{first_of};

use crate::bindings::judge_binding;
use crate::home::Home;
use std::alloc::{AllocError, Global};
use uc_read_names::Scope;
use uc_rules::{Fault, Rule, note, note_where};
use uc_syntax::{Binding, Decl, Identifier, VariableKind};
use uc_type_names::{NameSet, note_repeated_bindings};

/// Notes the faults of an instance: names that are bound again, those of the bindings, a module that isn't there, at its name, and at the
/// instance's name an input of the module that isn't bound.
pub(crate) fn judge_instance(
    alloc: Global,
    home: &Home<'_, '_>,
    identifier: Identifier,
    module_name: Identifier,
    bindings: &[Binding],
    first: &mut Option<Fault>,
) -> Result<(), AllocError>
    ensures { OnOk result (first.new ≡ first_of first.old (instance_faults home.now.system home.now.home identifier module_name bindings.now)) }
{
    let scope = home.scope(alloc);
    judge_instance_in(
        alloc,
        home,
        &scope,
        identifier,
        module_name,
        bindings,
        first,
    )
}

/// The same in a scope of the module that is outside all others.
fn judge_instance_in(
    alloc: Global,
    home: &Home<'_, '_>,
    scope: &Scope<'_, '_>,
    identifier: Identifier,
    module_name: Identifier,
    bindings: &[Binding],
    first: &mut Option<Fault>,
) -> Result<(), AllocError>
    requires { scope.now ≡ in_module home.now.system home.now.home }
    ensures { OnOk result (first.new ≡ first_of first.old (instance_faults home.now.system home.now.home identifier module_name bindings.now)) }
{
    note_repeated_bindings(alloc, bindings, first)?;
    let number = scope.module_named(module_name.name);
    judge_bindings(alloc, scope, number, bindings, first)?;
    note_missing(
        alloc,
        home,
        identifier,
        module_name,
        number,
        bindings,
        first,
    )?;
    Ok(())
}

fn judge_bindings(
    alloc: Global,
    scope: &Scope<'_, '_>,
    number: Option<usize>,
    bindings: &[Binding],
    first: &mut Option<Fault>,
) -> Result<(), AllocError>
    ensures { OnOk result (first.new ≡ first_of first.old (flat_map (judged_and_bound scope.now (option_map (module_in scope.now.system.modules) number)) bindings.now)) }
{
    for binding in bindings {
        judge_binding(alloc, scope, number, binding, first)?;
    }
    Ok(())
}

/// Notes a module that isn't there, and an input that isn't bound.
fn note_missing(
    alloc: Global,
    home: &Home<'_, '_>,
    identifier: Identifier,
    module_name: Identifier,
    number: Option<usize>,
    bindings: &[Binding],
    first: &mut Option<Fault>,
) -> Result<(), AllocError>
    ensures { OnOk result (first.new ≡ first_of first.old (missing_faults identifier module_name bindings.now (option_map (module_in home.now.system.modules) number))) }
{
    match number {
        None => {
            note(first, Rule::UnknownName, module_name.place);
            Ok(())
        }
        Some(number) => {
            let known = bound_names(alloc, bindings)?;
            let is_bound = are_bound(&known, home.declarations_of(number));
            note_where(first, !is_bound, Rule::Unbound, identifier.place);
            Ok(())
        }
    }
}

/// The names that are bound.
fn bound_names(alloc: Global, bindings: &[Binding]) -> Result<NameSet, AllocError>
    ensures { IfOk result (λ s. KnowsBindings bindings.now s) }
{
    let mut known = NameSet::new(alloc);
    for binding in bindings {
        known.insert(binding.identifier.name)?;
    }
    Ok(known)
}

/// Whether each input that some declarations make is one of these names.
fn are_bound(known: &NameSet, declarations: &[Decl]) -> bool
    ensures { result ≡ list_all (λ d. are_known known.now (inputs_in d)) declarations.now }
{
    for declaration in declarations {
        if !inputs_bound(known, declaration) {
            return false;
        }
    }
    true
}

fn inputs_bound(known: &NameSet, declaration: &Decl) -> bool
    ensures { result ≡ are_known known.now (inputs_in declaration.now) }
{
    match declaration {
        Decl::Variables(_, VariableKind::Input, identifiers, _) => {
            are_known(known, identifiers.as_slice())
        }
        _ => true,
    }
}

fn are_known(known: &NameSet, identifiers: &[Identifier]) -> bool
    ensures { result ≡ are_known known.now identifiers.now }
{
    for identifier in identifiers {
        if !known.contains(identifier.name) {
            return false;
        }
    }
    true
}
