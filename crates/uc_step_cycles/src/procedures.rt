//! The procedures of a module by their names.

ghost use Rattle.std.specs.Prelude.{◌≡◌, ◌++◌, ℕ, IfOk, OnOk};
ghost use Rattle.std.specs.Option.{option_copied};
ghost use Rattle.indexmap.specs.IndexMap.{get};
ghost use Rattle.uc_meaning.specs.Lookup.{or_else, procedure_in};
ghost use Rattle.uc_order_rules.specs.Writes.{modified_names};
ghost use Rattle.uc_step_cycles.specs.Procedures.{KnowsProcedures, modified_by, procedure_by};

use crate::names::add_modified;
use std::alloc::{AllocError, Global};
use uc_items::Items;
use uc_names::Firsts;
use uc_syntax::{Decl, Procedure};

/// The first procedure of each name.
#[derive(Drop)]
pub(crate) struct Procedures<'a> {
    named: Firsts<&'a Procedure>,
}

impl<'a> Procedures<'a> {
    /// Those of some declarations.
    pub(crate) fn of(alloc: Global, declarations: &'a [Decl]) -> Result<Procedures<'a>, AllocError>
        ensures { IfOk result (λ ps. KnowsProcedures declarations.now ps.named) }
    {
        let mut named = Firsts::new(alloc);
        for declaration in declarations {
            enter(&mut named, declaration)?;
        }
        Ok(Procedures { named })
    }

    /// Adds the names that the procedure of a name modifies.
    pub(crate) fn add_modified(&self, name: u32, names: &mut Items<u32>) -> Result<(), AllocError>
        ensures { OnOk result (names.new ≡ names.old ++ modified_by self.now.named name) }
    {
        match self.named.get(name) {
            None => Ok(()),
            Some(procedure) => {
                add_modified(procedure, names)?;
                Ok(())
            }
        }
    }
}

fn enter<'a>(named: &mut Firsts<&'a Procedure>, declaration: &'a Decl) -> Result<(), AllocError>
    ensures { OnOk result ((f : ℕ) → procedure_by named.new f ≡ or_else (procedure_by named.old f) (procedure_in f declaration.now)) }
{
    match declaration {
        Decl::Procedure(_, procedure) => {
            named.enter(procedure.identifier.name, Some(procedure))?;
            Ok(())
        }
        _ => Ok(()),
    }
}
