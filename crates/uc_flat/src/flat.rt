//! A design over numbered cells.

ghost use Rattle.std.specs.Prelude.{◌≡◌, ◌++◌, IfOk};
ghost use Rattle.uc_flat.specs.Flats.{cell_types, repeated};

use crate::expression::Expression;
use crate::statement::Statement;
use std::alloc::{AllocError, Global};
use uc_items::Items;
use uc_values::{Ty, copy_ty};

/// A cell: the names of the instances from main down to its own, its name there, and its type.
pub struct Cell {
    pub path: Items<u32>,
    pub name: u32,
    pub ty: Ty,
}

/// A constant: the number of its name, and its type. It is read by its place among the constants.
#[derive(Drop)]
pub struct Constant {
    pub name: u32,
    pub ty: Ty,
}

/// A function: the number of its name, the types of its arguments and that of its result. It is applied by its place among the functions.
pub struct Function {
    pub name: u32,
    pub arguments: Items<Ty>,
    pub result: Ty,
}

/// An assertion, which has number 0, or a `requires` of a call, numbered from 1, at a line and a column of its module's text.
pub struct Site {
    pub path: Items<u32>,
    pub line: u32,
    pub column: u32,
    pub requires_: u32,
}

/// An axiom or a formula of an instance: the place of its declaration, of how many copies it speaks, and its condition over the cells of all copies, one copy after another. An axiom speaks of none.
pub struct Formula {
    pub path: Items<u32>,
    pub decl: u32,
    pub copies: u32,
    pub condition: Expression,
}

/// A design over numbered cells: what it has, what its init code and its steps do, and its formulas. The number of each is its place.
pub struct Flat {
    pub cells: Items<Cell>,
    pub constants: Items<Constant>,
    pub functions: Items<Function>,
    /// What further cells begin with, over the cells: only the init code has them, behind the others.
    pub further: Items<Expression>,
    /// All init code, over the cells and the further ones.
    pub init: Items<Statement>,
    /// A step's code, over the old cells and, after them, the new cells. What is read of a new cell is written before.
    pub step: Items<Statement>,
    pub sites: Items<Site>,
    /// The axioms, and then the formulas.
    pub formulas: Items<Formula>,
    /// How many of the formulas are axioms.
    pub axioms: u32,
}

/// The types of the cells, in order.
pub fn types_of_cells(alloc: Global, f: &Flat) -> Result<Items<Ty>, AllocError>
    ensures { IfOk result (λ types. types ≡ cell_types f.now) }
{
    let mut types = Items::new(alloc);
    let cells = f.cells.as_slice();
    for cell in cells {
        types.push(copy_ty(alloc, &cell.ty)?)?;
    }
    Ok(types)
}

/// The same types again.
fn copy_types(alloc: Global, types: &[Ty]) -> Result<Items<Ty>, AllocError>
    ensures { IfOk result (λ all. all ≡ types.now) }
{
    let mut all = Items::new(alloc);
    for ty in types {
        all.push(copy_ty(alloc, ty)?)?;
    }
    Ok(all)
}

/// The types, and the same again.
pub fn twice_types(alloc: Global, types: &[Ty]) -> Result<Items<Ty>, AllocError>
    ensures { IfOk result (λ all. all ≡ types.now ++ types.now) }
{
    let mut all = copy_types(alloc, types)?;
    let more = copy_types(alloc, types)?;
    all.append(more)?;
    Ok(all)
}

/// The types, so many times over.
pub fn repeat_types(alloc: Global, types: &[Ty], n: u32) -> Result<Items<Ty>, AllocError>
    ensures { IfOk result (λ all. all ≡ repeated n types.now) }
{
    let mut all = Items::new(alloc);
    for turn in 0..n {
        let more = copy_types(alloc, types)?;
        all.append(more)?;
    }
    Ok(all)
}

impl Drop for Cell {
    fn drop(self) {
        let Cell { path, ty, name: _ } = self;
        drop(path);
        drop(ty);
    }
}

impl Drop for Function {
    fn drop(self) {
        let Function {
            arguments,
            result,
            name: _,
        } = self;
        drop(arguments);
        drop(result);
    }
}

impl Drop for Site {
    fn drop(self) {
        let Site {
            path,
            line: _,
            column: _,
            requires_: _,
        } = self;
        drop(path);
    }
}

impl Drop for Formula {
    fn drop(self) {
        let Formula {
            path,
            condition,
            decl: _,
            copies: _,
        } = self;
        drop(path);
        drop(condition);
    }
}

impl Drop for Flat {
    fn drop(self) {
        let Flat {
            cells,
            constants,
            functions,
            further,
            init,
            step,
            sites,
            formulas,
            axioms: _,
        } = self;
        drop(cells);
        drop(constants);
        drop(functions);
        drop(further);
        drop(init);
        drop(step);
        drop(sites);
        drop(formulas);
    }
}
