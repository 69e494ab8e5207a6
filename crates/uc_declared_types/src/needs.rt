//! An order of the aliases in which each comes after those that it needs, where there is one. It serves speed alone, so nothing is said
//! of it: in any order the same types become known.

use crate::named::alias_written;
use indexmap::IndexMap;
use std::alloc::{AllocError, Global};
use uc_graph::needed_first;
use uc_items::Items;
use uc_names::{DeclaredType, TypeHomes};
use uc_syntax::{Parameter, TypeExpr};

/// The places of aliases in a list.
#[derive(Drop)]
struct Numbers {
    numbers: IndexMap<DeclaredType, usize>,
}

impl Numbers {
    fn of(alloc: Global, listed: &[DeclaredType]) -> Result<Numbers, AllocError> {
        let mut numbers = IndexMap::new(alloc);
        for (number, declared) in listed.iter().enumerate() {
            numbers.insert(*declared, number)?;
        }
        Ok(Numbers { numbers })
    }

    /// Adds the place of a type, where it is one of the list.
    fn add(
        &self,
        declared: Option<DeclaredType>,
        needs: &mut Items<usize>,
    ) -> Result<(), AllocError> {
        if let Some(declared) = declared {
            if let Some(number) = self.numbers.get(&declared) {
                needs.push(*number)?;
            }
        }
        Ok(())
    }
}

/// Adds the aliases that a written type of the module at a place names.
#[cycle(add_needs)]
fn add_needs(
    homes: &TypeHomes<'_>,
    numbers: &Numbers,
    home: usize,
    ty: &TypeExpr,
    needs: &mut Items<usize>,
) -> Result<(), AllocError> {
    match ty {
        TypeExpr::Record(_, fields) => {
            add_field_needs(homes, numbers, home, fields.as_slice(), needs)
        }
        TypeExpr::Array(_, index, element) => {
            add_needs(homes, numbers, home, index.get(), needs)?;
            add_needs(homes, numbers, home, element.get(), needs)
        }
        TypeExpr::Named(_, name) => numbers.add(homes.declared(home, *name), needs),
        TypeExpr::OfModule(_, owner, identifier) => {
            match homes.design().module_named(*owner) {
                None => Ok(()),
                Some(other) => numbers.add(homes.declared_in(other, identifier.name), needs),
            }
        }
        _ => Ok(()),
    }
}

#[cycle(add_needs)]
fn add_field_needs(
    homes: &TypeHomes<'_>,
    numbers: &Numbers,
    home: usize,
    fields: &[Parameter<TypeExpr>],
    needs: &mut Items<usize>,
) -> Result<(), AllocError> {
    for field in fields {
        add_needs(homes, numbers, home, &field.ty, needs)?;
    }
    Ok(())
}

/// What an alias needs of a list.
fn needs_of(
    alloc: Global,
    homes: &TypeHomes<'_>,
    numbers: &Numbers,
    declared: DeclaredType,
) -> Result<Items<usize>, AllocError> {
    let mut needs = Items::new(alloc);
    if let Some(ty) = alias_written(homes, declared) {
        add_needs(homes, numbers, declared.home, ty, &mut needs)?;
    }
    Ok(needs)
}

/// Adds what each alias of a list needs of it.
fn add_all_needs(
    alloc: Global,
    homes: &TypeHomes<'_>,
    numbers: &Numbers,
    listed: &[DeclaredType],
    graph: &mut Items<Items<usize>>,
) -> Result<(), AllocError> {
    for declared in listed {
        let needs = needs_of(alloc, homes, numbers, *declared)?;
        graph.push(needs)?;
    }
    Ok(())
}

/// What the aliases of a list need of it, by their places.
fn graph_of(
    alloc: Global,
    homes: &TypeHomes<'_>,
    listed: &[DeclaredType],
) -> Result<Items<Items<usize>>, AllocError> {
    let numbers = Numbers::of(alloc, listed)?;
    let mut graph = Items::new(alloc);
    add_all_needs(alloc, homes, &numbers, listed, &mut graph)?;
    Ok(graph)
}

/// What stands in a list at some places.
fn listed_at(
    alloc: Global,
    listed: &[DeclaredType],
    places: &[usize],
) -> Result<Items<DeclaredType>, AllocError> {
    let mut found = Items::new(alloc);
    for place in places {
        if let Some(declared) = listed.get(*place) {
            found.push(*declared)?;
        }
    }
    Ok(found)
}

/// The aliases of a list, each after those that it needs. What leads into a cycle is left out.
pub(crate) fn in_order(
    alloc: Global,
    homes: &TypeHomes<'_>,
    listed: &[DeclaredType],
) -> Result<Items<DeclaredType>, AllocError> {
    let graph = graph_of(alloc, homes, listed)?;
    let order = needed_first(alloc, graph.as_slice())?;
    listed_at(alloc, listed, order.as_slice())
}
