//! The faults of cycles in a module.

ghost use Rattle.std.specs.Prelude.{◌≡◌};
ghost use Rattle.uc_meaning.specs.Lookup.{System};
ghost use Rattle.uc_syntax.specs.declared.declaration.Module.{Module as ModuleParts};
ghost use Rattle.uc_rules.specs.Cycles.{alias_cycle_in, cycle_faults};
ghost use Rattle.uc_rules.specs.Faults.{first_of};
ghost use Rattle.uc_cycles.specs.Numbers.{KnowsCycles};

use crate::cycles::DesignCycles;
use uc_rules::{Fault, Rule, note_where};
use uc_syntax::{Decl, Module};

/// Notes a module of a design that lies on a cycle of instances, and each of its types that lies on a cycle of aliases. It takes no memory.
pub fn note_cycles(cycles: &DesignCycles, whole: &Module, first: &mut Option<Fault>)
    ensures { (s : System) → KnowsCycles s cycles.now → first.new ≡ first_of first.old (cycle_faults s whole.now) }
{
    note_where(
        first,
        cycles.has_module(whole.name),
        Rule::Cycle,
        whole.place,
    );
    let declarations = whole.decls.as_slice();
    for declaration in declarations {
        note_alias(cycles, whole.name, declaration, first);
    }
}

fn note_alias(cycles: &DesignCycles, owner: u32, declaration: &Decl, first: &mut Option<Fault>)
    ensures { (s : System) (m : ModuleParts) → KnowsCycles s cycles.now → owner ≡ m.name → first.new ≡ first_of first.old (alias_cycle_in s m declaration.now) }
{
    match declaration {
        Decl::TypeAlias(place, identifier, _) => {
            let is_cyclic = cycles.has_alias(owner, identifier.name);
            note_where(first, is_cyclic, Rule::Cycle, *place);
        }
        _ => {}
    }
}
