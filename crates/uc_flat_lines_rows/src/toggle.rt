//! The design.

ghost use Rattle.std.specs.Prelude.{◌≡◌, ◌∷◌, [], IfOk};
ghost use Rattle.uc_flat_lines_rows.specs.Toggles.{low, enabled, turned, is_low, gives, toggle};

use std::alloc::{AllocError, Global};
use uc_flat::{Cell, Constant, Expression, Flat, Formula, Statement};
use uc_items::Items;
use uc_terms::Op;
use uc_values::{Ty, Value};

fn low(alloc: Global) -> Expression
    ensures { result ≡ low }
{
    Expression::Apply(Op::Const(Ty::Bool, Value::Bool(false)), Items::new(alloc))
}

fn enabled(alloc: Global) -> Expression
    ensures { result ≡ enabled }
{
    Expression::Apply(Op::Symbol(0, Ty::Bool), Items::new(alloc))
}

fn turned(alloc: Global) -> Result<Expression, AllocError>
    ensures { IfOk result (λ e. e ≡ turned) }
{
    let mut pair = Items::new(alloc);
    pair.push(Expression::Cell(0))?;
    pair.push(enabled(alloc))?;
    let mut parts = Items::new(alloc);
    parts.push(Expression::Apply(Op::Eq, pair))?;
    Ok(Expression::Apply(Op::Not, parts))
}

fn is_low(alloc: Global) -> Result<Expression, AllocError>
    ensures { IfOk result (λ e. e ≡ is_low) }
{
    let mut parts = Items::new(alloc);
    parts.push(Expression::Cell(0))?;
    Ok(Expression::Apply(Op::Not, parts))
}

fn gives(alloc: Global, cell: u32, e: Expression) -> Result<Items<Statement>, AllocError>
    ensures { IfOk result (λ code. code ≡ gives cell e) }
{
    let mut code = Items::new(alloc);
    code.push(Statement::Assign(cell, e))?;
    Ok(code)
}

/// The boolean is cell 0, which the init code takes from a further cell, and the formula says that it is false.
pub(crate) fn toggle(alloc: Global) -> Result<Flat, AllocError>
    ensures { IfOk result (λ f. f ≡ toggle) }
{
    let mut cells = Items::new(alloc);
    cells.push(Cell {
        path: Items::new(alloc),
        name: 0,
        ty: Ty::Bool,
    })?;
    let mut constants = Items::new(alloc);
    constants.push(Constant {
        name: 1,
        ty: Ty::Bool,
    })?;
    let condition = is_low(alloc)?;
    let mut formulas = Items::new(alloc);
    formulas.push(Formula {
        path: Items::new(alloc),
        decl: 0,
        copies: 1,
        condition,
    })?;
    let mut further = Items::new(alloc);
    further.push(low(alloc))?;
    let init = gives(alloc, 0, Expression::Cell(1))?;
    let next = turned(alloc)?;
    let step = gives(alloc, 1, next)?;
    Ok(Flat {
        cells,
        constants,
        functions: Items::new(alloc),
        further,
        init,
        step,
        sites: Items::new(alloc),
        formulas,
        axioms: 0,
    })
}
