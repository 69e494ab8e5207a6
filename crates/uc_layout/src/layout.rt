//! The places of a design's cells, constants and functions.

ghost use Rattle.std.specs.Prelude.{◌≡◌, IfOk};
ghost use Rattle.uc_meaning.specs.Lookup.{system_of};
ghost use Rattle.uc_meaning.specs.Cells.{cell_of, constant_number, function_number};
ghost use Rattle.uc_lookup.specs.Parts.{system_in};

use crate::layout_cells::{self, CellName};
use crate::listing::list;
use crate::symbols::{self, SymbolKind, SymbolName, list_symbols};
use std::alloc::{AllocError, Global};
use std::marker::Model;
use uc_items::Items;
use uc_lookup::SystemRef;
use uc_syntax::{Design, Module};
use uc_type_reader::Tables;

/// A design with the number of its main module, with the tables of its types, and with lists of its cells, constants and functions.
#[derive(Drop)]
pub struct Layout {
    tables: Tables,
    cells: Items<CellName>,
    constants: Items<SymbolName>,
    functions: Items<SymbolName>,
}

impl Model for Layout {
    ghost use Rattle.uc_meaning.specs.Lookup.{System};
    ghost use Rattle.uc_layout.specs.Tables.{AreTables};
    ghost use Rattle.std.specs.Coded.{codes};
    ghost use Rattle.uc_syntax.specs.contracts.type_expression.TypeExpr as types;
    ghost use Rattle.uc_syntax.specs.contracts.expression.Expr as expressions;
    ghost use Rattle.uc_syntax.specs.contracts.statement.Stmt as statements;

    ghost Value = { System };

    ghost coded = { Prim.hlevel (codes, types.the_row.coded, expressions.the_row.coded, statements.the_row.coded) };

    ghost view = { λ o. o.tables };

    ghost invariant = { λ o. AreTables o.tables o.cells o.constants o.functions };
}

impl Layout {
    /// The layout of a design with the number of its main module.
    pub fn of(alloc: Global, design: Design, main: u32) -> Result<Layout, AllocError>
        ensures { IfOk result (λ l. l ≡ system_of design main) }
    {
        let tables = Tables::of(alloc, design, main)?;
        let view = tables.system();
        let listing = list(alloc, &view)?;
        let codes = listing.codes.as_slice();
        let constants = list_symbols(alloc, SymbolKind::Constant, view.modules, codes)?;
        let functions = list_symbols(alloc, SymbolKind::Function, view.modules, codes)?;
        Ok(Layout {
            tables,
            cells: listing.cells,
            constants,
            functions,
        })
    }

    /// The design by reference.
    pub fn system(&self) -> SystemRef<'_>
        ensures { system_in result ≡ self.now }
    {
        self.tables.system()
    }

    /// The tables of the design's types.
    pub fn tables(&self) -> &Tables
        ensures { result.now ≡ self.now }
    {
        &self.tables
    }

    /// The place of a name's cell in a state.
    pub fn cell_of(&self, path: &[u32], name: u32) -> Option<usize>
        ensures { result ≡ cell_of self.now path.now name }
    {
        layout_cells::place_of(self.cells.as_slice(), path, name)
    }

    /// The number of a module's constant in an interpretation, and 0 for another name.
    pub fn constant_number(&self, code: &Module, name: u32) -> usize
        ensures { result ≡ constant_number self.now code.now name }
    {
        symbols::place_of(self.constants.as_slice(), code.name, name)
    }

    /// The number of a module's function in an interpretation, and 0 for another name.
    pub fn function_number(&self, code: &Module, name: u32) -> usize
        ensures { result ≡ function_number self.now code.now name }
    {
        symbols::place_of(self.functions.as_slice(), code.name, name)
    }
}
