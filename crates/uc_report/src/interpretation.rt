//! The text of an interpretation.

ghost use Rattle.std.specs.Prelude.{◌≡◌, ◌++◌, OnOk};
ghost use Rattle.uc_meaning.specs.Cells.{constants_of};
ghost use Rattle.uc_report.specs.Described.{described};
ghost use Rattle.uc_report.specs.TraceText.{constant_line, constant_texts, interpretation_text};
ghost use Rattle.uc_report.specs.TraceTables.{AreCexTables, name_of_main};

use crate::trace_tables::CexTables;
use crate::values::put_fitting;
use crate::{DesignView, put};
use std::alloc::AllocError;
use uc_flat::Constant;
use uc_items::at;
use uc_meaning::Interp;
use uc_values::Value;

/// Puts the constants with their values below a line of their own, and nothing where there are none.
pub(crate) fn put_interpretation(
    out: &mut Vec<u8>,
    d: &DesignView<'_>,
    tables: &CexTables<'_>,
    interp: &Interp,
) -> Result<(), AllocError>
    requires { AreCexTables (described d.now) tables.now }
    ensures { OnOk result (out.new.items ≡ out.old.items ++ interpretation_text (described d.now) interp.now) }
{
    if tables.constants.is_empty() {
        return Ok(());
    }
    put(out, b"  interpretation\n")?;
    put_constants(out, d, tables, interp.consts.as_slice())?;
    Ok(())
}

/// Puts the constants, each with its value.
fn put_constants(
    out: &mut Vec<u8>,
    d: &DesignView<'_>,
    tables: &CexTables<'_>,
    values: &[Value],
) -> Result<(), AllocError>
    requires { AreCexTables (described d.now) tables.now }
    ensures { OnOk result (out.new.items ≡ out.old.items ++ constant_texts (described d.now) (constants_of (described d.now)) values.now) }
{
    let main = d.name_or_none(main_name(d));
    let constants = tables.constants;
    let count = constants.len().min(values.len());
    for place in 0..count {
        put_constant(out, d, tables, main, &constants[place], &values[place])?;
    }
    Ok(())
}

/// Puts a constant by its module and its name, with its value.
#[tactic(auto, unfolding(crate::specs::TraceText::constant_line))]
fn put_constant(
    out: &mut Vec<u8>,
    d: &DesignView<'_>,
    tables: &CexTables<'_>,
    owner: &[u8],
    constant: &Constant,
    value: &Value,
) -> Result<(), AllocError>
    requires { AreCexTables (described d.now) tables.now }
    ensures { OnOk result (out.new.items ≡ out.old.items ++ constant_line (described d.now) owner.now constant.now.name constant.now.ty value.now) }
{
    put(out, b"    ")?;
    put(out, owner)?;
    put(out, b".")?;
    put(out, d.name(constant.name))?;
    put(out, b" = ")?;
    put_fitting(out, d, tables, &constant.ty, value)?;
    put(out, b"\n")?;
    Ok(())
}

/// The name of main.
fn main_name(d: &DesignView<'_>) -> Option<u32>
    ensures { result ≡ name_of_main (described d.now) }
{
    let main = at(d.modules, d.main as usize)?;
    Some(main.name)
}
