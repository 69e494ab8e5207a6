//! What main expands to.

ghost use Rattle.std.specs.Prelude.{◌≡◌, [], map};
ghost use Rattle.uc_lookup.specs.Parts.{system_in};
ghost use Rattle.uc_meaning.specs.Lookup.{main_module};
ghost use Rattle.uc_meaning.specs.Steps.{main_next};
ghost use Rattle.uc_order_rules.specs.Roots.{instances_in};
ghost use Rattle.uc_order_rules.specs.Sizes.{code_size, expansion, instance_size, procedure_size, sum};
ghost use Rattle.uc_sizes.specs.Spending.{Spends, size_in};
ghost use Rattle.uc_sizes.specs.Expanding.{declared_procedures};

use crate::axioms::spend_axioms;
use crate::instances::spend_instances;
use crate::parts::{CODE_LEVELS, spend_procedure};
use crate::{Halt, Spent, spend_next};
use std::alloc::Global;
use uc_lookup::SystemRef;
use uc_syntax::Decl;

/// Counts the whole expansion.
pub(crate) fn spend_expansion(
    alloc: Global,
    system: &SystemRef<'_>,
    spent: &mut Spent,
) -> Result<(), Halt>
    ensures { Spends (size_in spent.old) (size_in spent.new) result (expansion (system_in system.now)) }
{
    spend_main_next(alloc, system, spent)?;
    spend_all_instances(alloc, system, spent)?;
    spend_axioms(alloc, system, spent)?;
    spend_main_procedures(alloc, system, spent)
}

/// Counts the next block of main.
fn spend_main_next(alloc: Global, system: &SystemRef<'_>, spent: &mut Spent) -> Result<(), Halt>
    ensures { Spends (size_in spent.old) (size_in spent.new) result (code_size (system_in system.now) [] (main_next (system_in system.now))) }
{
    match system.main_module() {
        Some(code) => spend_next(alloc, system, CODE_LEVELS, &[], code, spent),
        None => Ok(()),
    }
}

/// Counts the init code and the formulas of all instances.
fn spend_all_instances(alloc: Global, system: &SystemRef<'_>, spent: &mut Spent) -> Result<(), Halt>
    ensures { Spends (size_in spent.old) (size_in spent.new) result (sum (map (instance_size (system_in system.now)) (instances_in (system_in system.now)))) }
{
    let depth = system.modules.len() as u128 + 1;
    match system.main_module() {
        Some(code) => spend_instances(alloc, system, depth, &[], code, spent),
        None => Ok(()),
    }
}

/// Counts the procedures of main.
fn spend_main_procedures(
    alloc: Global,
    system: &SystemRef<'_>,
    spent: &mut Spent,
) -> Result<(), Halt>
    ensures { Spends (size_in spent.old) (size_in spent.new) result (declared_procedures (system_in system.now) (main_module (system_in system.now))) }
{
    match system.main_module() {
        Some(code) => spend_procedures(alloc, system, code.decls.as_slice(), spent),
        None => Ok(()),
    }
}

fn spend_procedures(
    alloc: Global,
    system: &SystemRef<'_>,
    declarations: &[Decl],
    spent: &mut Spent,
) -> Result<(), Halt>
    ensures { Spends (size_in spent.old) (size_in spent.new) result (sum (map (procedure_size (system_in system.now)) declarations.now)) }
{
    for declaration in declarations {
        spend_procedure(alloc, system, declaration, spent)?;
    }
    Ok(())
}
