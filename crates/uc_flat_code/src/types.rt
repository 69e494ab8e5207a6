//! The types that cells may have.

ghost use Rattle.std.specs.Prelude.{◌≡◌};
ghost use Rattle.std.specs.List.{list_all};
ghost use Rattle.uc_flat_expressions.specs.Answers.{IsAnswer};
ghost use Rattle.uc_flat_code.specs.CellTypes.{is_cell_type, cell_type_of};

use crate::flat_init_holding::built_where;
use std::alloc::Global;
use uc_flat_expressions::FlatError;
use uc_syntax::{Module, TypeExpr};
use uc_type_reader::{Tables, type_of_written};
use uc_values::{Field, Ty};

/// Whether cells may have the type: booleans, bit-vectors of 1 to 64 bits, enums with a label, and records of these.
#[cycle(is_cell_type)]
#[tactic(auto, using(crate::proofs::CellTypes::boolean_is, crate::proofs::CellTypes::integer_is, crate::proofs::CellTypes::bits_is, crate::proofs::CellTypes::enum_is, crate::proofs::CellTypes::open_is, crate::proofs::CellTypes::record_is, crate::proofs::CellTypes::array_is))]
pub fn is_cell_type(ty: &Ty) -> bool
    ensures { result ≡ is_cell_type ty.now }
{
    match ty {
        Ty::Bool => true,
        Ty::Int => false,
        Ty::Bv(width) => 1 <= *width && *width <= 64,
        Ty::Enum(_, labels) => 0 < *labels,
        Ty::Un(_) => false,
        Ty::Rec(fields) => are_field_types(fields.as_slice()),
        Ty::Arr(_, _) => false,
    }
}

#[cycle(is_cell_type)]
fn are_field_types(fields: &[Field<Ty>]) -> bool
    ensures { result ≡ list_all (λ f. is_cell_type f.ty) fields.now }
{
    for field in fields {
        if !is_cell_type(&field.ty) {
            return false;
        }
    }
    true
}

/// The type that a written type of a module stands for, where cells may have it.
pub(crate) fn cell_type_of(
    alloc: Global,
    tables: &Tables,
    code: &Module,
    ty: &TypeExpr,
) -> Result<Ty, FlatError>
    ensures { IsAnswer (cell_type_of tables.now code.now ty.now) result }
{
    let ty = type_of_written(alloc, tables, code, ty)?;
    built_where(is_cell_type(&ty), ty)
}
