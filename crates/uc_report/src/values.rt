//! The text of a value.

ghost use Rattle.std.specs.Prelude.{◌≡◌, ◌++◌, [], OnOk, codes};
ghost use Rattle.std.specs.List.{join_by};
ghost use Rattle.uc_report.specs.Described.{described, name_of};
ghost use Rattle.uc_report.specs.Values.{truth_text, bits_text, member_text, field_texts, printers, value_text, separator, IsArray};
ghost use Rattle.uc_report.specs.TraceText.{fitting_text};
ghost use Rattle.uc_report.specs.TraceTables.{AreCexTables};

use crate::parts::{
    bits_of, default_of, label_of, member_of, number_of, parts_of, rows_of, truth_of,
};
use crate::trace_put::put_integer;
use crate::trace_tables::CexTables;
use crate::{DesignView, put, put_number};
use std::alloc::AllocError;
use uc_values::{Field, Ty, Value, fits};

/// Puts a value, nothing where it does not fit the type.
pub(crate) fn put_fitting(
    out: &mut Vec<u8>,
    d: &DesignView<'_>,
    tables: &CexTables<'_>,
    ty: &Ty,
    value: &Value,
) -> Result<(), AllocError>
    requires { AreCexTables (described d.now) tables.now }
    ensures { OnOk result (out.new.items ≡ out.old.items ++ fitting_text (described d.now) ty.now value.now) }
{
    if fits(ty, value) {
        put_value(out, d, tables, ty, value)
    } else {
        Ok(())
    }
}

/// Puts a value as one of a type.
#[cycle(put_value)]
#[tactic(auto, using(crate::proofs::Forms::boolean_is, crate::proofs::Forms::integer_is, crate::proofs::Forms::bits_is, crate::proofs::Forms::enum_is, crate::proofs::Forms::open_is))]
fn put_value(
    out: &mut Vec<u8>,
    d: &DesignView<'_>,
    tables: &CexTables<'_>,
    ty: &Ty,
    value: &Value,
) -> Result<(), AllocError>
    requires { AreCexTables (described d.now) tables.now }
    ensures { OnOk result (out.new.items ≡ out.old.items ++ value_text (described d.now) ty.now value.now) }
{
    match ty {
        Ty::Bool => {
            put(out, truth_word(truth_of(value)))?;
            Ok(())
        }
        Ty::Int => {
            put_integer(out, number_of(value))?;
            Ok(())
        }
        Ty::Bv(width) => {
            put_bits(out, bits_of(value), *width)?;
            Ok(())
        }
        Ty::Enum(number, _) => {
            let label = tables.label_at(d, *number, label_of(value));
            put(out, d.name_or_none(label))?;
            Ok(())
        }
        Ty::Un(number) => {
            put_member(out, d, tables, *number, member_of(value))?;
            Ok(())
        }
        Ty::Rec(fields) => {
            put(out, b"{")?;
            put_fields(out, d, tables, fields.as_slice(), parts_of(value))?;
            put(out, b"}")?;
            Ok(())
        }
        Ty::Arr(_, _) => put_array(out, d, tables, ty, value),
    }
}

/// Puts the fields of a record by their names, with a comma and a space between neighbours.
#[cycle(put_value)]
fn put_fields(
    out: &mut Vec<u8>,
    d: &DesignView<'_>,
    tables: &CexTables<'_>,
    fields: &[Field<Ty>],
    parts: &[Value],
) -> Result<(), AllocError>
    requires { AreCexTables (described d.now) tables.now }
    ensures { OnOk result (out.new.items ≡ out.old.items ++ join_by (λ text. text) (codes ", ") (field_texts (described d.now) (printers (described d.now) fields.now) parts.now)) }
{
    let count = fields.len().min(parts.len());
    for place in 0..count {
        let field = &fields[place];
        put_field_name(out, d, place, field.name)?;
        put_value(out, d, tables, &field.ty, &parts[place])?;
    }
    Ok(())
}

/// Puts an array: its exceptions as they stand, each with a comma and a space behind it, and its default.
#[cycle(put_value)]
fn put_array(
    out: &mut Vec<u8>,
    d: &DesignView<'_>,
    tables: &CexTables<'_>,
    ty: &Ty,
    value: &Value,
) -> Result<(), AllocError>
    requires tables { AreCexTables (described d.now) tables.now }
    requires array { IsArray ty.now }
    ensures { OnOk result (out.new.items ≡ out.old.items ++ value_text (described d.now) ty.now value.now) }
{
    let Ty::Arr(index, element) = ty else {
        return Ok(());
    };
    put(out, b"[")?;
    for (place, held) in rows_of(value) {
        put_value(out, d, tables, index.get(), place)?;
        put(out, b" -> ")?;
        put_value(out, d, tables, element.get(), held)?;
        put(out, b", ")?;
    }
    put(out, b"else ")?;
    put_value(out, d, tables, element.get(), default_of(value))?;
    put(out, b"]")?;
    Ok(())
}

/// Puts the name of the field at a place, with what stands before and behind it.
fn put_field_name(
    out: &mut Vec<u8>,
    d: &DesignView<'_>,
    place: usize,
    name: u32,
) -> Result<(), AllocError>
    ensures { OnOk result (out.new.items ≡ out.old.items ++ (separator place ++ (name_of (described d.now) name ++ codes " = "))) }
{
    put(out, before(place))?;
    put(out, d.name(name))?;
    put(out, b" = ")?;
    Ok(())
}

/// What stands before a field: nothing before the first.
fn before(place: usize) -> &'static [u8]
    ensures { result.now ≡ separator place }
{
    if place == 0 { b"" } else { b", " }
}

fn truth_word(truth: bool) -> &'static [u8]
    ensures { result.now ≡ truth_text truth }
{
    if truth { b"true" } else { b"false" }
}

/// Puts a bit-vector: its number and its width.
fn put_bits(out: &mut Vec<u8>, bits: u64, width: u8) -> Result<(), AllocError>
    ensures { OnOk result (out.new.items ≡ out.old.items ++ bits_text bits width) }
{
    put_number(out, bits)?;
    put(out, b"bv")?;
    put_number(out, u64::from(width))?;
    Ok(())
}

/// Puts a value of a type without a definition: the name of the type, and which of its values it is.
fn put_member(
    out: &mut Vec<u8>,
    d: &DesignView<'_>,
    tables: &CexTables<'_>,
    number: u32,
    member: u64,
) -> Result<(), AllocError>
    requires { AreCexTables (described d.now) tables.now }
    ensures { OnOk result (out.new.items ≡ out.old.items ++ member_text (described d.now) number member) }
{
    put(out, d.name_or_none(tables.opaque_at(d, number)))?;
    put(out, b"!")?;
    put_number(out, member)?;
    Ok(())
}
