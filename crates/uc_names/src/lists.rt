//! The tables of all modules of a design.

ghost use Rattle.std.specs.Prelude.{IfOk};
ghost use Rattle.uc_names.specs.Homes.{AllOf, HoldsNames, HoldsOwn};

use crate::own::own_types;
use crate::{DeclaredType, DesignNames, Firsts, NameTable, table_of};
use std::alloc::{AllocError, Global};
use uc_items::Items;

/// The names of the first so many modules of a design, and the types that they declare themselves.
pub(crate) fn tables_of<'a>(
    alloc: Global,
    design: &DesignNames<'a>,
    count: usize,
) -> Result<(Items<NameTable<'a>>, Items<Firsts<DeclaredType>>), AllocError>
    ensures names { IfOk result (λ tables. AllOf (HoldsNames design.now) tables.0 count) }
    ensures own { IfOk result (λ tables. AllOf (HoldsOwn design.now) tables.1 count) }
{
    let names = all_names(alloc, design, count)?;
    let own = all_own(alloc, design, count)?;
    Ok((names, own))
}

/// The names of the first so many modules of a design.
fn all_names<'a>(
    alloc: Global,
    design: &DesignNames<'a>,
    count: usize,
) -> Result<Items<NameTable<'a>>, AllocError>
    ensures { IfOk result (λ ts. AllOf (HoldsNames design.now) ts count) }
{
    let mut tables = Items::new(alloc);
    for home in 0..count {
        let table = table_of(alloc, design, home)?;
        tables.push(table)?;
    }
    Ok(tables)
}

/// The types that the first so many modules of a design declare themselves.
fn all_own(
    alloc: Global,
    design: &DesignNames<'_>,
    count: usize,
) -> Result<Items<Firsts<DeclaredType>>, AllocError>
    ensures { IfOk result (λ ts. AllOf (HoldsOwn design.now) ts count) }
{
    let mut tables = Items::new(alloc);
    for home in 0..count {
        let table = own_types(alloc, design, home)?;
        tables.push(table)?;
    }
    Ok(tables)
}
