//! The code of all blocks of a kind.

ghost use Rattle.std.specs.Prelude.{◌≡◌, IfOk};
ghost use Rattle.std.specs.List.{flat_map};
ghost use Rattle.uc_meaning.specs.Lookup.{init_in, next_in, init_of, next_of};
ghost use Rattle.uc_flat_expressions.specs.Answers.{IsAnswer};
ghost use Rattle.uc_flat_code.specs.CellTypes.{cell_type_of};
ghost use Rattle.uc_flat_code.specs.Init.{init_code};
ghost use Rattle.uc_flat_order.specs.Arranged.{code_arranged};

use std::alloc::{AllocError, Global};
use uc_flat::Statement;
use uc_flat_code::{MadeCode, Writing, init_code};
use uc_flat_expressions::{FlatError, Meant};
use uc_flat_order::code_arranged;
use uc_items::Items;
use uc_syntax::{Decl, Module, Stmt, copy_block};
use uc_type_reader::Tables;

fn init_in(alloc: Global, decl: &Decl) -> Result<Items<Stmt>, AllocError>
    ensures { IfOk result (λ block. block ≡ init_in decl.now) }
{
    match decl {
        Decl::Init(_, block) => copy_block(alloc, block.as_slice()),
        _ => Ok(Items::new(alloc)),
    }
}

fn next_in(alloc: Global, decl: &Decl) -> Result<Items<Stmt>, AllocError>
    ensures { IfOk result (λ block. block ≡ next_in decl.now) }
{
    match decl {
        Decl::Next(_, block) => copy_block(alloc, block.as_slice()),
        _ => Ok(Items::new(alloc)),
    }
}

#[tactic(auto, using(uc_syntax::proofs::Added::added_begin, uc_syntax::proofs::Added::added_more, uc_syntax::proofs::Added::added_end))]
fn init_block(alloc: Global, decls: &[Decl]) -> Result<Items<Stmt>, AllocError>
    ensures { IfOk result (λ block. block ≡ flat_map init_in decls.now) }
{
    let mut all = Items::new(alloc);
    for decl in decls {
        let block = init_in(alloc, decl)?;
        all.append(block)?;
    }
    Ok(all)
}

#[tactic(auto, using(uc_syntax::proofs::Added::added_begin, uc_syntax::proofs::Added::added_more, uc_syntax::proofs::Added::added_end))]
fn next_block(alloc: Global, decls: &[Decl]) -> Result<Items<Stmt>, AllocError>
    ensures { IfOk result (λ block. block ≡ flat_map next_in decls.now) }
{
    let mut all = Items::new(alloc);
    for decl in decls {
        let block = next_in(alloc, decl)?;
        all.append(block)?;
    }
    Ok(all)
}

/// The code over cells of the `init` block of a module, whose further cells stand behind so many cells.
pub(crate) fn made_init(
    alloc: Global,
    tables: &Tables,
    code: &Module,
    names: &[Meant],
    count: u32,
) -> Result<MadeCode, FlatError>
    ensures { IsAnswer (init_code (cell_type_of tables.now code.now) names.now count (init_of code.now)) result }
{
    let block = init_block(alloc, code.decls.as_slice())?;
    init_code(alloc, tables, code, names, count, block.as_slice())
}

/// The code over cells of the `next` block of a module, where no way through its statements, in the order in which they are run, writes a part
/// of a cell after it was written there, or read in the new state.
pub(crate) fn next_code(
    alloc: Global,
    names: &[Meant],
    writing: Writing,
    code: &Module,
) -> Result<Items<Statement>, FlatError>
    ensures { IsAnswer (code_arranged names.now writing (next_of code.now)) result }
{
    let block = next_block(alloc, code.decls.as_slice())?;
    code_arranged(alloc, names, writing, block.as_slice())
}
