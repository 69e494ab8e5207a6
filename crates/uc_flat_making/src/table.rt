//! What each name stands for.

ghost use Rattle.std.specs.Prelude.{◌≡◌, map, IfOk, unwrap_or};
ghost use Rattle.uc_meaning.specs.Lookup.{variable_of};
ghost use Rattle.uc_type_reader.specs.Reading.{label_meant};
ghost use Rattle.uc_flat_expressions.specs.declared.typed.Meant.TheVariants.{Constant as ConstantOf};
ghost use Rattle.uc_flat_design.specs.Names.{StandsAlone, of_label, of_cell_number, counted, names_over_cells};
ghost use Rattle.uc_flat_making.specs.Cells.{own_cells, own_constants};
ghost use Rattle.uc_flat_making.specs.Firsts.{AreDeclared};
ghost use Rattle.uc_flat_making.specs.Table.{of_places, of_variable_in, meant_by};

use crate::cells::{self, has_cells, own_cells};
use crate::constants::{self, own_constants};
use crate::labels::labels_of;
use crate::variables::variables_of;
use std::alloc::{AllocError, Global};
use uc_flat_expressions::Meant;
use uc_items::Items;
use uc_lookup::Variable;
use uc_names::Firsts;
use uc_syntax::{Module, VariableKind};
use uc_type_reader::{Label, Tables, type_of_written};
use uc_values::Ty;

/// What the names of a module are declared as, by name.
#[derive(Drop)]
struct Declared<'a> {
    labels: Firsts<Label>,
    variables: Firsts<Variable<'a>>,
    cells: Firsts<usize>,
    constants: Firsts<usize>,
}

/// What each name of a design of one module stands for over the cells of one state, by its number.
#[tactic(auto, using(crate::proofs::Entries::names_are))]
pub fn names_table(
    alloc: Global,
    tables: &Tables,
    code: &Module,
) -> Result<Items<Meant>, AllocError>
    requires { StandsAlone tables.now code.now }
    ensures { IfOk result (λ names. names ≡ names_over_cells tables.now code.now) }
{
    let declared = declared_in(alloc, tables, code)?;
    let count = tables.system().names.len();
    let names = all_meant(alloc, tables, code, &declared, count)?;
    Ok(names)
}

fn declared_in<'a>(
    alloc: Global,
    tables: &Tables,
    code: &'a Module,
) -> Result<Declared<'a>, AllocError>
    ensures { IfOk result (λ d. AreDeclared tables.now code.now d) }
{
    let cells = own_cells(alloc, tables, code)?;
    let constants = own_constants(alloc, tables, code)?;
    Ok(Declared {
        labels: labels_of(alloc, tables, code)?,
        variables: variables_of(alloc, code)?,
        cells: cells::places_of(alloc, cells.as_slice())?,
        constants: constants::places_of(alloc, constants.as_slice())?,
    })
}

/// What the first names stand for, so many of them.
#[tactic(auto, using(crate::proofs::Entries::counted_none))]
fn all_meant(
    alloc: Global,
    tables: &Tables,
    code: &Module,
    declared: &Declared<'_>,
    count: usize,
) -> Result<Items<Meant>, AllocError>
    requires { AreDeclared tables.now code.now declared.now }
    ensures { IfOk result (λ all. all ≡ map (meant_by tables.now code.now (own_cells tables.now code.now) (own_constants tables.now code.now)) (counted 0 count)) }
{
    let mut all = Items::new(alloc);
    for number in 0..count {
        let name = word(number)?;
        let meant = meant(alloc, tables, code, declared, name)?;
        all.push(meant)?;
    }
    Ok(all)
}

#[tactic(auto, using(crate::proofs::Entries::meant_label, crate::proofs::Entries::meant_other))]
fn meant(
    alloc: Global,
    tables: &Tables,
    code: &Module,
    declared: &Declared<'_>,
    name: u32,
) -> Result<Meant, AllocError>
    requires { AreDeclared tables.now code.now declared.now }
    ensures { IfOk result (λ t. t ≡ meant_by tables.now code.now (own_cells tables.now code.now) (own_constants tables.now code.now) name) }
{
    match declared.labels.get(name) {
        Some(label) => of_label(tables, label),
        None => of_variable(alloc, tables, code, declared, name),
    }
}

/// A label, where its enum has it.
fn of_label(tables: &Tables, label: Label) -> Result<Meant, AllocError>
    ensures { IfOk result (λ t. t ≡ of_label tables.now (label_meant label)) }
{
    let count = word(tables.label_count(label.enum_number))?;
    if label.place >= count {
        return Ok(Meant::Unknown);
    }
    Ok(Meant::Label(label.enum_number, count, label.place))
}

/// A variable, input, output or constant of main.
#[tactic(auto, using(crate::proofs::Entries::meant_unknown, crate::proofs::Entries::meant_variable))]
fn of_variable(
    alloc: Global,
    tables: &Tables,
    code: &Module,
    declared: &Declared<'_>,
    name: u32,
) -> Result<Meant, AllocError>
    requires { AreDeclared tables.now code.now declared.now }
    ensures { IfOk result (λ t. t ≡ of_variable_in tables.now code.now (own_cells tables.now code.now) (own_constants tables.now code.now) name (variable_of code.now name)) }
{
    match declared.variables.get(name) {
        None => Ok(Meant::Unknown),
        Some(variable) => {
            let ty = type_of_written(alloc, tables, code, variable.ty)?;
            let cell = declared.cells.get(name);
            let constant = declared.constants.get(name);
            of_kind(cell, constant, ty, variable.kind)
        }
    }
}

/// A name of this kind and type, by the numbers of its cell and of its constant.
fn of_kind(
    cell: Option<usize>,
    constant: Option<usize>,
    ty: Ty,
    kind: VariableKind,
) -> Result<Meant, AllocError>
    ensures { IfOk result (λ t. t ≡ of_places cell constant ty kind) }
{
    if has_cells(kind) {
        return of_cell(cell, ty);
    }
    of_constant(constant, ty)
}

/// A constant of a type. Each one that is declared has a place.
fn of_constant(place: Option<usize>, ty: Ty) -> Result<Meant, AllocError>
    ensures { IfOk result (λ t. t ≡ ConstantOf (unwrap_or place 0) ty) }
{
    let number = word(place.unwrap_or(0))?;
    Ok(Meant::Constant(number, ty))
}

/// A cell of a type, which is read in the old state alone.
fn of_cell(place: Option<usize>, ty: Ty) -> Result<Meant, AllocError>
    ensures { IfOk result (λ t. t ≡ of_cell_number place ty) }
{
    match place {
        None => Ok(Meant::Unknown),
        Some(place) => {
            let place = word(place)?;
            Ok(Meant::Cell(place, None, ty))
        }
    }
}

/// A number that fits a `u32`.
pub(crate) fn word(number: usize) -> Result<u32, AllocError>
    ensures { IfOk result (λ n. n ≡ number) }
{
    match u32::try_from(number) {
        Ok(number) => Ok(number),
        Err(_) => Err(AllocError),
    }
}
