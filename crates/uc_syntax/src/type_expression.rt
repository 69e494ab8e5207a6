//! Types as they are written.

ghost use Rattle.std.specs.Prelude.{◌≡◌, IfOk};

use crate::place::{Identifier, Place};
use std::alloc::{AllocError, Global};
use uc_items::{Boxed, Items};

/// A name with its type: a parameter, a result or a field.
#[derive(Debug, Drop)]
pub struct Parameter<T> {
    pub identifier: Identifier,
    pub ty: T,
}

/// A type as it is written, with the place of its first word.
pub enum TypeExpr {
    Boolean(Place),
    Integer(Place),
    /// The width as it is written.
    Bits(Place, u32),
    /// `enum { .. }`
    Enumeration(Place, Items<Identifier>),
    /// `record { .. }`
    Record(Place, Items<Parameter<TypeExpr>>),
    /// `[index]element`
    Array(Place, Boxed<TypeExpr>, Boxed<TypeExpr>),
    Named(Place, u32),
    /// `module.name`
    OfModule(Place, u32, Identifier),
}

impl TypeExpr {
    /// The same type again.
    #[cycle(copy_types)]
    pub fn copy(&self, alloc: Global) -> Result<TypeExpr, AllocError>
        ensures { IfOk result (λ t. t ≡ self.now) }
    {
        match self {
            TypeExpr::Boolean(place) => Ok(TypeExpr::Boolean(*place)),
            TypeExpr::Integer(place) => Ok(TypeExpr::Integer(*place)),
            TypeExpr::Bits(place, width) => Ok(TypeExpr::Bits(*place, *width)),
            TypeExpr::Enumeration(place, labels) => {
                let labels = Items::from_slice(alloc, labels.as_slice())?;
                Ok(TypeExpr::Enumeration(*place, labels))
            }
            TypeExpr::Record(place, fields) => {
                let fields = copy_parameters(alloc, fields.as_slice())?;
                Ok(TypeExpr::Record(*place, fields))
            }
            TypeExpr::Array(place, index, element) => {
                let index = index.get().copy(alloc)?;
                let index = Boxed::new(alloc, index)?;
                let element = element.get().copy(alloc)?;
                let element = Boxed::new(alloc, element)?;
                Ok(TypeExpr::Array(*place, index, element))
            }
            TypeExpr::Named(place, name) => Ok(TypeExpr::Named(*place, *name)),
            TypeExpr::OfModule(place, module, name) => Ok(TypeExpr::OfModule(
                *place, *module, *name,
            )),
        }
    }
}

/// The same parameters again.
#[cycle(copy_types)]
pub fn copy_parameters(
    alloc: Global,
    parameters: &[Parameter<TypeExpr>],
) -> Result<Items<Parameter<TypeExpr>>, AllocError>
    ensures { IfOk result (λ ps. ps ≡ parameters.now) }
{
    let mut copies = Items::new(alloc);
    for parameter in parameters {
        let ty = parameter.ty.copy(alloc)?;
        copies.push(Parameter {
            identifier: parameter.identifier,
            ty,
        })?;
    }
    Ok(copies)
}

impl Drop for TypeExpr {
    fn drop(self) {
        match self {
            TypeExpr::Boolean(_)
            | TypeExpr::Integer(_)
            | TypeExpr::Bits(_, _)
            | TypeExpr::Named(_, _)
            | TypeExpr::OfModule(_, _, _) => {}
            TypeExpr::Enumeration(_, labels) => drop(labels),
            TypeExpr::Record(_, fields) => drop(fields),
            TypeExpr::Array(_, index, element) => {
                drop(index);
                drop(element);
            }
        }
    }
}
