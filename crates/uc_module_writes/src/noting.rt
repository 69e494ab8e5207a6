//! All modules of a design.

ghost use Rattle.std.specs.Prelude.{◌≡◌, ℕ, suc, IfOk, OnOk};
ghost use Rattle.std.specs.List.{flat_map};
ghost use Rattle.uc_syntax.specs.declared.declaration.Module.{Module};
ghost use Rattle.uc_meaning.specs.Lookup.{System};
ghost use Rattle.uc_rules.specs.Faults.{first_of};
ghost use Rattle.uc_order_rules.specs.Writes.{overlap, twice_in_step, written_through};
ghost use Rattle.uc_module_writes.specs.Found.{FindsBlock};
ghost use Rattle.uc_declared_types.specs.AliasLaw.{IsAmong};
ghost use Rattle.uc_module_writes.specs.Places.{place_by, place_named};
ghost use Rattle.uc_module_writes.specs.Premise.{NoInstanceCycles};
ghost use Rattle.uc_module_writes.specs.Stepped.{summary_by, MeetsAmong, IsReady, NotesModule};

use crate::bound::paired_names;
use crate::graph::instance_graph;
use crate::places::ModulePlaces;
use crate::summaries::Summaries;
use crate::tables::enter_all;
use crate::{StepTable, WrittenPairs, written_pairs};
use std::alloc::{AllocError, Global};
use uc_graph::needed_first;
use uc_names::DesignNames;
use uc_rules::Fault;
use uc_syntax::Decl;
use uc_type_names::NameSet;
use uc_written_once::{Effects, note_written_twice};

/// Notes each statement of a next block of a design that writes a part which overlaps one that was written before on some path. Each
/// module is judged by itself, by what the modules of its instances write.
pub fn note_twice_in_step(
    alloc: Global,
    design: &DesignNames<'_>,
    first: &mut Option<Fault>,
) -> Result<(), AllocError>
    ensures { OnOk result (NoInstanceCycles design.now → first.new ≡ first_of first.old (flat_map (twice_in_step design.now) design.now.modules)) }
{
    let modules = design.system().modules;
    let names = paired_names(alloc, modules)?;
    let places = ModulePlaces::of(alloc, modules)?;
    note_in_order(alloc, design, &names, &places, first)?;
    Ok(())
}

fn note_in_order(
    alloc: Global,
    design: &DesignNames<'_>,
    names: &NameSet,
    places: &ModulePlaces,
    first: &mut Option<Fault>,
) -> Result<(), AllocError>
    ensures { OnOk result (NoInstanceCycles design.now → ((m : Module) → IsAmong m design.now.modules → MeetsAmong names.now m) → ((x : ℕ) → place_by places.now x ≡ place_named design.now.modules x) → first.new ≡ first_of first.old (flat_map (twice_in_step design.now) design.now.modules)) }
{
    let graph = instance_graph(alloc, places, design.system().modules)?;
    let ordered = needed_first(alloc, graph.as_slice())?;
    let order = ordered.as_slice();
    let mut summaries = Summaries::new(alloc);
    for place in order {
        note_module(alloc, design, names, places, *place, &mut summaries, first)?;
    }
    Ok(())
}

/// Notes the faults of the module at a place, and what it writes.
fn note_module(
    alloc: Global,
    design: &DesignNames<'_>,
    names: &NameSet,
    places: &ModulePlaces,
    place: usize,
    summaries: &mut Summaries,
    first: &mut Option<Fault>,
) -> Result<(), AllocError>
    ensures { OnOk result (NotesModule names.now places.now design.now place summaries.old summaries.new first.old first.new) }
{
    let declarations = design.declarations_of(place);
    let written = note_in_module(alloc, names, places, summaries, declarations, first)?;
    summaries.insert(place, written)?;
    Ok(())
}

/// Notes the faults of a module, by what is known of the modules of its instances, and gives what it writes.
fn note_in_module(
    alloc: Global,
    names: &NameSet,
    places: &ModulePlaces,
    summaries: &Summaries,
    declarations: &[Decl],
    first: &mut Option<Fault>,
) -> Result<WrittenPairs, AllocError>
    ensures faults { OnOk result ((system : System) (n : ℕ) (m : Module) → m.decls ≡ declarations.now → MeetsAmong names.now m → IsReady names.now (summary_by places.now summaries.now) n system m → first.new ≡ first_of first.old (written_through (suc n) system overlap m).faults) }
    ensures written { IfOk result (λ w. (system : System) (n : ℕ) (m : Module) → m.decls ≡ declarations.now → MeetsAmong names.now m → IsReady names.now (summary_by places.now summaries.now) n system m → FindsBlock names.now (λ meets. written_through (suc n) system meets m) w) }
{
    let mut effects = Effects::new(alloc);
    let mut table = StepTable::new(alloc, names);
    enter_all(
        alloc,
        names,
        places,
        summaries,
        declarations,
        &mut effects,
        &mut table,
    )?;
    note_written_twice(alloc, &effects, declarations, first)?;
    let written = written_pairs(alloc, &effects, &table, declarations)?;
    Ok(written)
}
