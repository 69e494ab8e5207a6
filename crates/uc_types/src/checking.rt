//! Which designs keep the static rules.

ghost use Rattle.std.specs.Prelude.{◌≡◌, ◌++◌, Some, IfOk, IfErr, IsOk, OnOk};
ghost use Rattle.std.specs.List.{flat_map};
ghost use Rattle.uc_meaning.specs.Lookup.{system_of};
ghost use Rattle.uc_rules.specs.Declarations.{IsFirstFault, KeepsRules, main_faults, main_number, module_faults, repeated_modules};
ghost use Rattle.uc_rules.specs.Faults.{first_of};
ghost use Rattle.uc_types.specs.Typed.{IsTypeError, main_or_first};

use crate::error::TypeError;
use crate::main_module::main_number;
use crate::modules::note_modules;
use crate::typed::TypedDesign;
use std::alloc::{AllocError, Global};
use uc_declared_types::KnownTypes;
use uc_lookup::SystemRef;
use uc_rules::{Fault, Rule, note_where, verdict};
use uc_syntax::{Design, Place};
use uc_type_names::note_repeated_modules;

/// The first place of the first file.
const BEGINNING: Place = Place {
    file: 0,
    line: 1,
    col: 1,
};

/// The design with the place of the module of this name, where no static rule is broken. Else it is refused with the first fault.
pub fn check(alloc: Global, design: Design, main: &str) -> Result<TypedDesign, TypeError>
    ensures design { IfOk result (λ t. t.contents ≡ design) }
    ensures main { IfOk result (λ t. main_number design main.now ≡ Some t.main) }
    ensures kept { IsOk result → KeepsRules design main.now }
    ensures refused { IfErr result (IsTypeError (IsFirstFault design main.now)) }
{
    let number = judged_main(alloc, &design, main)?;
    Ok(TypedDesign::of(design, number))
}

/// The place of main, where no static rule is broken.
fn judged_main(alloc: Global, design: &Design, main: &str) -> Result<u32, TypeError>
    ensures main { IfOk result (λ n. main_number design.now main.now ≡ Some n) }
    ensures kept { OnOk result (KeepsRules design.now main.now) }
    ensures refused { IfErr result (IsTypeError (IsFirstFault design.now main.now)) }
{
    let found = main_number(design, main);
    let number = main_or_first(found)?;
    let mut first = None;
    note_main(found, &mut first);
    note_design(alloc, design, number, &mut first)?;
    match verdict(first) {
        Ok(()) => Ok(number),
        Err(fault) => Err(TypeError::Fault(fault)),
    }
}

/// The place of main, and that of the first module where main isn't there. An `Err` is want of numbers.
fn main_or_first(found: Option<usize>) -> Result<u32, AllocError>
    ensures { IfOk result (λ n. n ≡ main_or_first found) }
{
    match found {
        None => Ok(0),
        Some(number) => match u32::try_from(number) {
            Ok(number) => Ok(number),
            Err(_) => Err(AllocError),
        },
    }
}

/// Notes that main isn't there, at the first place of the first file.
fn note_main(found: Option<usize>, first: &mut Option<Fault>)
    ensures { first.new ≡ first_of first.old (main_faults found) }
{
    note_where(first, found.is_none(), Rule::UnknownName, BEGINNING);
}

/// Notes the faults of a design with the place of main: modules whose name an earlier one has, and those of each module.
fn note_design(
    alloc: Global,
    design: &Design,
    main: u32,
    first: &mut Option<Fault>,
) -> Result<(), AllocError>
    ensures { OnOk result (first.new ≡ first_of first.old (repeated_modules design.now.modules ++ flat_map (module_faults (system_of design.now main)) design.now.modules)) }
{
    let modules = design.modules().as_slice();
    note_repeated_modules(alloc, modules, first)?;
    let types = KnownTypes::of(alloc, SystemRef::of(design, main))?;
    let noted = note_modules(alloc, &types, modules, first);
    drop(types);
    noted
}
