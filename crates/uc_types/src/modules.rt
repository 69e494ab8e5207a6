//! The faults of the modules of a design.

ghost use Rattle.std.specs.Prelude.{◌≡◌, Some, slice_get, OnOk};
ghost use Rattle.std.specs.List.{flat_map};
ghost use Rattle.uc_cycles.specs.Numbers.{KnowsCycles};
ghost use Rattle.uc_rules.specs.Declarations.{declaration_faults, module_faults};
ghost use Rattle.uc_rules.specs.Faults.{first_of};

use std::alloc::{AllocError, Global};
use uc_cycles::{DesignCycles, cycles_of, note_cycles, reading_defines};
use uc_declaration_rules::{Home, judge_declaration, note_names};
use uc_declared_types::KnownTypes;
use uc_rules::Fault;
use uc_syntax::{Decl, Module};

/// Notes the faults of the modules of a design, each by itself.
pub(crate) fn note_modules(
    alloc: Global,
    types: &KnownTypes<'_>,
    modules: &[Module],
    first: &mut Option<Fault>,
) -> Result<(), AllocError>
    requires { modules.now ≡ types.now.modules }
    ensures { OnOk result (first.new ≡ first_of first.old (flat_map (module_faults types.now) modules.now)) }
{
    let cycles = cycles_of(alloc, types.homes())?;
    let noted = note_each(alloc, types, &cycles, modules, first);
    drop(cycles);
    noted
}

/// Notes the faults of the modules of a design, whose cycles are known.
fn note_each(
    alloc: Global,
    types: &KnownTypes<'_>,
    cycles: &DesignCycles,
    modules: &[Module],
    first: &mut Option<Fault>,
) -> Result<(), AllocError>
    requires modules { modules.now ≡ types.now.modules }
    requires cycles { KnowsCycles types.now cycles.now }
    ensures { OnOk result (first.new ≡ first_of first.old (flat_map (module_faults types.now) modules.now)) }
{
    for (number, module) in modules.iter().enumerate() {
        note_module(alloc, types, cycles, number, module, first)?;
    }
    Ok(())
}

/// Notes the faults of the module at a place: names that are declared again, cycles, and those of its declarations.
fn note_module(
    alloc: Global,
    types: &KnownTypes<'_>,
    cycles: &DesignCycles,
    number: usize,
    whole: &Module,
    first: &mut Option<Fault>,
) -> Result<(), AllocError>
    requires there { slice_get types.now.modules number ≡ Some whole.now }
    requires cycles { KnowsCycles types.now cycles.now }
    ensures { OnOk result (first.new ≡ first_of first.old (module_faults types.now whole.now)) }
{
    let homes = types.homes();
    note_names(alloc, homes.design(), number, first)?;
    note_cycles(cycles, whole, first);
    let reading = reading_defines(alloc, homes, number)?;
    let home = Home::of(types, &reading, number);
    note_declarations(alloc, &home, whole.decls.as_slice(), first)
}

/// Notes the faults of the declarations of a module.
fn note_declarations(
    alloc: Global,
    home: &Home<'_, '_>,
    declarations: &[Decl],
    first: &mut Option<Fault>,
) -> Result<(), AllocError>
    ensures { OnOk result (first.new ≡ first_of first.old (flat_map (declaration_faults home.now.system home.now.home) declarations.now)) }
{
    for declaration in declarations {
        judge_declaration(alloc, home, declaration, first)?;
    }
    Ok(())
}
