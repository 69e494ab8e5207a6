//! What is listed of a design once.

ghost use Rattle.std.specs.Prelude.{◌≡◌, ◌++◌, ◌+◌, length, IfOk, OnOk};
ghost use Rattle.std.specs.List.{flat_map};
ghost use Rattle.uc_meaning.specs.Lookup.{System};
ghost use Rattle.uc_meaning.specs.Types.{opaque_types_of};
ghost use Rattle.uc_type_reader.specs.Places.{ListsOf, written_enums, opaque_at, opaques_in, declaration_count};

use crate::mentioned::{WrittenEnum, mentioned_in};
use std::alloc::{AllocError, Global};
use uc_items::Items;
use uc_syntax::{Decl, Module};

/// What is listed of modules: the enums that they write, their types without a definition, and how many declarations they have.
#[derive(Drop)]
pub(crate) struct Lists {
    pub enums: Items<WrittenEnum>,
    pub opaques: Items<(u32, u32)>,
    pub declarations: usize,
}

/// The lists of the modules of a design.
pub(crate) fn lists_of(alloc: Global, modules: &[Module]) -> Result<Lists, AllocError>
    ensures { IfOk result (λ l. ListsOf modules.now l) }
{
    let enums = written_enums(alloc, modules)?;
    let opaques = opaque_types(alloc, modules)?;
    let declarations = declaration_count(modules)?;
    Ok(Lists {
        enums,
        opaques,
        declarations,
    })
}

/// The enums that a design writes, in their order.
#[tactic(auto, using(uc_syntax::proofs::Added::added_begin, uc_syntax::proofs::Added::added_more, uc_syntax::proofs::Added::added_end, crate::proofs::Listed::module_enums, crate::proofs::Listed::all_enums))]
fn written_enums(alloc: Global, modules: &[Module]) -> Result<Items<WrittenEnum>, AllocError>
    ensures { IfOk result (λ es. es ≡ written_enums modules.now) }
{
    let mut enums = Items::new(alloc);
    for code in modules {
        let found = mentioned_in(alloc, code)?;
        enums.append(found.enums)?;
    }
    Ok(enums)
}

/// The types without a definition, by module and name.
#[tactic(auto, using(uc_syntax::proofs::Added::added_begin, uc_syntax::proofs::Added::added_more, uc_syntax::proofs::Added::added_end))]
fn opaque_types(alloc: Global, modules: &[Module]) -> Result<Items<(u32, u32)>, AllocError>
    ensures { IfOk result (λ ts. ts ≡ flat_map opaques_in modules.now) }
{
    let mut types = Items::new(alloc);
    for code in modules {
        add_opaques(code, &mut types)?;
    }
    Ok(types)
}

#[tactic(auto, using(uc_syntax::proofs::Added::added_begin, uc_syntax::proofs::Added::added_more, uc_syntax::proofs::Added::added_end))]
fn add_opaques(code: &Module, types: &mut Items<(u32, u32)>) -> Result<(), AllocError>
    ensures { OnOk result (types.new ≡ types.old ++ opaques_in code.now) }
{
    for decl in code.decls.as_slice() {
        add_opaque(code.name, decl, types)?;
    }
    Ok(())
}

#[tactic(auto, using(uc_syntax::proofs::Added::append_nil))]
fn add_opaque(code: u32, decl: &Decl, types: &mut Items<(u32, u32)>) -> Result<(), AllocError>
    ensures { OnOk result (types.new ≡ types.old ++ opaque_at code decl.now) }
{
    match decl {
        Decl::OpaqueType(_, identifier) => {
            types.push((code, identifier.name))?;
            Ok(())
        }
        _ => Ok(()),
    }
}

/// How many declarations the modules have together.
#[tactic(auto, using(crate::proofs::Listed::count_more))]
fn declaration_count(modules: &[Module]) -> Result<usize, AllocError>
    ensures { IfOk result (λ n. n ≡ declaration_count modules.now) }
{
    let mut count = 0usize;
    for code in modules {
        count = count
            .checked_add(code.decls.as_slice().len())
            .ok_or(AllocError)?;
    }
    Ok(count)
}
