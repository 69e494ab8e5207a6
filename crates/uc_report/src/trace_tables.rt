//! What a counterexample looks up beside the design.

ghost use Rattle.std.specs.Prelude.{◌≡◌, ◌++◌, [], OnOk, IfOk, slice_get};
ghost use Rattle.std.specs.Option.{option_map};
ghost use Rattle.std.specs.List.{filter_map};
ghost use Rattle.uc_meaning.specs.Types.{opaque_in, opaque_types_of};
ghost use Rattle.uc_meaning.specs.Cells.{cell_of};
ghost use Rattle.uc_report.specs.Described.{described};
ghost use Rattle.uc_report.specs.Values.{label_at, opaque_at};
ghost use Rattle.uc_report.specs.TraceTables.{AreCexTables, IsShown};

use crate::places::{place_among, places_in_main};
use crate::shown::ShownDesign;
use crate::{DesignView, HeadTables};
use std::alloc::{AllocError, Global};
use uc_flat::{Cell, Constant};
use uc_items::{Items, at};
use uc_syntax::Decl;

/// The names of a module and of a type without a definition that it declares.
pub(crate) type OpaqueType = (u32, u32);

/// What the heads of lines look up, the labels of each enum by its number, the types without a definition by theirs, the constants, the
/// cells, and the place of the first cell of main for each name.
#[derive(Drop)]
pub struct CexTables<'a> {
    pub heads: HeadTables<'a>,
    pub(crate) labels: &'a [Items<u32>],
    pub(crate) opaque_types: Vec<OpaqueType>,
    pub(crate) constants: &'a [Constant],
    pub(crate) cells: &'a [Cell],
    pub(crate) places: Vec<Option<usize>>,
}

impl<'a> CexTables<'a> {
    /// The tables of a design.
    pub fn of(alloc: Global, d: &ShownDesign<'a>) -> Result<CexTables<'a>, AllocError>
        requires { IsShown d.now }
        ensures { IfOk result (λ tables. AreCexTables (described d.now.view) tables) }
    {
        let heads = HeadTables::of(alloc, &d.view)?;
        let opaque_types = opaque_types_of(alloc, &d.view)?;
        let places = places_in_main(alloc, d.cells, d.view.names.len())?;
        Ok(CexTables {
            heads,
            labels: d.labels,
            opaque_types,
            constants: d.constants,
            cells: d.cells,
            places,
        })
    }

    /// The name of the label at a place of the enum of a number.
    #[tactic(auto, unfolding(crate::specs::Values::label_at))]
    pub(crate) fn label_at(&self, d: &DesignView<'_>, number: u32, place: u32) -> Option<u32>
        requires { AreCexTables (described d.now) self.now }
        ensures { result ≡ label_at (described d.now) number place }
    {
        let _ = d;
        let labels = at(self.labels, number as usize)?;
        at(labels.as_slice(), place as usize).copied()
    }

    /// The name of the type without a definition of a number.
    #[tactic(auto, unfolding(crate::specs::Values::opaque_at))]
    pub(crate) fn opaque_at(&self, d: &DesignView<'_>, number: u32) -> Option<u32>
        requires { AreCexTables (described d.now) self.now }
        ensures { result ≡ opaque_at (described d.now) number }
    {
        let _ = d;
        match at(self.opaque_types.as_slice(), number as usize) {
            Some((_, name)) => Some(*name),
            None => None,
        }
    }

    /// The place of a cell in a state.
    #[tactic(auto, using(crate::proofs::Listed::place_there))]
    pub(crate) fn place_of(&self, d: &DesignView<'_>, path: &[u32], name: u32) -> Option<usize>
        requires { AreCexTables (described d.now) self.now }
        ensures { result ≡ cell_of (described d.now) path.now name }
    {
        match path {
            [] => self.place_in_main(d, name),
            _ => place_among(self.cells, path, name),
        }
    }

    /// The place of a cell of main.
    #[tactic(auto, using(crate::proofs::Listed::place_there))]
    fn place_in_main(&self, d: &DesignView<'_>, name: u32) -> Option<usize>
        requires { AreCexTables (described d.now) self.now }
        ensures { result ≡ cell_of (described d.now) [] name }
    {
        let _ = d;
        let number = name as usize;
        if number < self.places.len() {
            self.places[number]
        } else {
            place_among(self.cells, &[], name)
        }
    }
}

/// The types without a definition, in the order of the modules and of their declarations.
#[tactic(auto, unfolding(uc_meaning::specs::Types::opaque_types_of))]
fn opaque_types_of(alloc: Global, d: &DesignView<'_>) -> Result<Vec<OpaqueType>, AllocError>
    ensures { IfOk result (λ types. types.items ≡ opaque_types_of (described d.now)) }
{
    let mut types = Vec::new(alloc);
    for module in d.modules {
        add_opaque_types(&mut types, module.name, module.decls.as_slice())?;
    }
    Ok(types)
}

fn add_opaque_types(
    types: &mut Vec<OpaqueType>,
    owner: u32,
    decls: &[Decl],
) -> Result<(), AllocError>
    ensures { OnOk result (types.new.items ≡ types.old.items ++ filter_map (opaque_in owner) decls.now) }
{
    for decl in decls {
        if let Decl::OpaqueType(_, identifier) = decl {
            types.push((owner, identifier.name))?;
        }
    }
    Ok(())
}
