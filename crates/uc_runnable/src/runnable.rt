//! A design that runs, with the design over numbered cells that stands for it.

ghost use Rattle.std.specs.Prelude.{◌≡◌, IfOk, IfErr};
ghost use Rattle.std.specs.Bool.{Decides};
ghost use Rattle.uc_syntax.specs.WrittenTypes.{labels_of};
ghost use Rattle.uc_meaning.specs.Lookup.{system_of};
ghost use Rattle.uc_meaning.specs.Lines.{main_declarations};
ghost use Rattle.uc_lookup.specs.Parts.{system_in};
ghost use Rattle.uc_runnable.specs.Runnable.{RunsOver, IsRunnable, IsNoneFor};
ghost use Rattle.uc_runnable.specs.Only.{IsOnlyPlain, IsFault};

use crate::declarations::unfit_place;
use crate::is_plain;
use std::alloc::{AllocError, Global};
use std::marker::Model;
use uc_flat::Flat;
use uc_flat_expressions::FlatError;
use uc_flat_making::flat_design;
use uc_items::Items;
use uc_lookup::SystemRef;
use uc_syntax::{Decl, Design, Module, Place};
use uc_type_reader::Tables;

/// A design that runs today, with the number of main and with the design over numbered cells.
#[derive(Drop)]
pub struct Runnable {
    tables: Tables,
    flat: Flat,
}

impl Model for Runnable {
    ghost use Rattle.uc_meaning.specs.Lookup.{System};
    ghost use Rattle.uc_runnable.specs.Runnable.{RunsOver};
    ghost use Rattle.std.specs.Coded.{codes};
    ghost use Rattle.uc_syntax.specs.contracts.type_expression.TypeExpr as types;
    ghost use Rattle.uc_syntax.specs.contracts.expression.Expr as expressions;
    ghost use Rattle.uc_syntax.specs.contracts.statement.Stmt as statements;

    ghost Value = { System };

    ghost coded = { Prim.hlevel (codes, types.the_row.coded, expressions.the_row.coded, statements.the_row.coded) };

    ghost view = { λ r. r.tables };

    ghost invariant = { λ r. RunsOver r.tables r.flat };
}

/// Why a design does not run.
#[derive(Clone, Copy, Debug, PartialEq, Eq)]
pub enum NotRunnable {
    NoMemory,
    /// It is not built yet, with the place where its one module is at fault, if there.
    NotBuilt(Option<Place>),
}

impl From<AllocError> for NotRunnable {
    ghost use Rattle.uc_runnable.specs.declared.runnable.NotRunnable.TheVariants.{NoMemory};

    ghost from_gives = { λ _ e. e ≡ NoMemory };

    fn from(_: AllocError) -> NotRunnable {
        NotRunnable::NoMemory
    }
}

impl Runnable {
    /// The design with the number of its main module, where it runs.
    pub fn of(alloc: Global, design: Design, main: u32) -> Result<Runnable, NotRunnable>
        ensures design { IfOk result (λ r. r ≡ system_of design main) }
        ensures none { IfErr result (IsNoneFor (system_of design main)) }
    {
        let tables = Tables::of(alloc, design, main)?;
        let flat = over_cells(alloc, &tables)?;
        Ok(Runnable { tables, flat })
    }

    /// What the type keeps, as a fact for callers.
    pub fn keeps(&self)
        ensures { IsRunnable self.now }
    {
        let _ = &self.flat;
    }

    /// The design by reference.
    pub fn system(&self) -> SystemRef<'_>
        ensures { system_in result ≡ self.now }
    {
        self.tables.system()
    }

    /// The numbers of the labels of each enum.
    pub fn labels(&self) -> &[Items<u32>]
        ensures { result.now ≡ labels_of self.now.modules }
    {
        self.tables.labels()
    }

    /// The design over numbered cells.
    pub fn flat(&self) -> &Flat
        ensures { RunsOver self.now result.now }
    {
        &self.flat
    }

    /// The declarations of main.
    pub fn declarations(&self) -> &[Decl]
        ensures { result.now ≡ main_declarations self.now }
    {
        let system = self.tables.system();
        match system.main_module() {
            Some(code) => code.decls.as_slice(),
            None => &[],
        }
    }
}

/// The design over numbered cells, where the design runs.
fn over_cells(alloc: Global, tables: &Tables) -> Result<Flat, NotRunnable>
    ensures flat { IfOk result (RunsOver tables.now) }
    ensures none { IfErr result (IsNoneFor tables.now) }
{
    let system = tables.system();
    if !is_only_plain(system.main, system.modules) {
        return Err(not_built(alloc, tables));
    }
    match flat_design(alloc, tables) {
        Ok(flat) => Ok(flat),
        Err(FlatError::NoMemory) => Err(NotRunnable::NoMemory),
        Err(FlatError::NotBuilt) => Err(not_built(alloc, tables)),
    }
}

/// Where a design that does not run is at fault.
fn not_built(alloc: Global, tables: &Tables) -> NotRunnable
    ensures { IsFault tables.now result }
{
    match unfit_place(alloc, tables) {
        Ok(place) => NotRunnable::NotBuilt(place),
        Err(AllocError) => NotRunnable::NoMemory,
    }
}

/// Whether there is one module, which is main and whose declarations are plain.
fn is_only_plain(main: u32, modules: &[Module]) -> bool
    ensures { Decides result (IsOnlyPlain main modules.now) }
{
    if main != 0 || modules.len() != 1 {
        return false;
    }
    is_plain(&modules[0])
}
