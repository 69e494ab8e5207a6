//! The types without a definition that a design declares.

ghost use Rattle.std.specs.Prelude.{◌≡◌, ◌++◌, IfOk, OnOk};
ghost use Rattle.std.specs.List.{flat_map};
ghost use Rattle.uc_names.specs.Opaques.{opaque_at, opaques_in};

use std::alloc::{AllocError, Global};
use uc_items::Items;
use uc_syntax::{Decl, Module};

/// The types without a definition, by module and name.
#[tactic(auto, using(uc_syntax::proofs::Added::added_begin, uc_syntax::proofs::Added::added_more, uc_syntax::proofs::Added::added_end))]
pub(crate) fn opaque_types(
    alloc: Global,
    modules: &[Module],
) -> Result<Items<(u32, u32)>, AllocError>
    ensures { IfOk result (λ ts. ts ≡ flat_map opaques_in modules.now) }
{
    let mut types = Items::new(alloc);
    for code in modules {
        add_opaques(code, &mut types)?;
    }
    Ok(types)
}

#[tactic(auto, using(uc_syntax::proofs::Added::added_begin, uc_syntax::proofs::Added::added_more, uc_syntax::proofs::Added::added_end))]
fn add_opaques(code: &Module, types: &mut Items<(u32, u32)>) -> Result<(), AllocError>
    ensures { OnOk result (types.new ≡ types.old ++ opaques_in code.now) }
{
    for decl in code.decls.as_slice() {
        add_opaque(code.name, decl, types)?;
    }
    Ok(())
}

#[tactic(auto, using(uc_syntax::proofs::Added::append_nil))]
fn add_opaque(code: u32, decl: &Decl, types: &mut Items<(u32, u32)>) -> Result<(), AllocError>
    ensures { OnOk result (types.new ≡ types.old ++ opaque_at code decl.now) }
{
    match decl {
        Decl::OpaqueType(_, identifier) => {
            types.push((code, identifier.name))?;
            Ok(())
        }
        _ => Ok(()),
    }
}
