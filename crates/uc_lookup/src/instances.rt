//! The instances of a module.

ghost use Rattle.std.specs.Prelude.{◌≡◌, nat_eq};
ghost use Rattle.std.specs.Option.{option_map};
ghost use Rattle.std.specs.List.{find, filter_map};
ghost use Rattle.uc_meaning.specs.Lookup.{first_some, instance_in};
ghost use Rattle.uc_lookup.specs.Parts.{instance_parts, instance_named};

use uc_syntax::{Binding, Decl};

/// An instance: its name, the name of its module and what is bound.
#[derive(Clone, Copy)]
pub struct InstanceParts<'a> {
    pub name: u32,
    pub module_name: u32,
    pub bindings: &'a [Binding],
}

/// The instance of a name.
pub fn instance_of(decls: &[Decl], name: u32) -> Option<InstanceParts<'_>>
    ensures { option_map instance_parts result ≡ find (λ i. nat_eq i.name name) (filter_map instance_in decls.now) }
{
    first_instance(decls, name)
}

fn first_instance(decls: &[Decl], name: u32) -> Option<InstanceParts<'_>>
    ensures { option_map instance_parts result ≡ first_some (instance_named name) decls.now }
{
    for decl in decls {
        if let Some(found) = instance_named(decl, name) {
            return Some(found);
        }
    }
    None
}

/// The instance that a declaration declares, where it has the name.
fn instance_named(decl: &Decl, name: u32) -> Option<InstanceParts<'_>>
    ensures { option_map instance_parts result ≡ instance_named name decl.now }
{
    match decl {
        Decl::Instance(_, identifier, module, bindings) => {
            if identifier.name == name {
                Some(InstanceParts {
                    name: identifier.name,
                    module_name: module.name,
                    bindings: bindings.as_slice(),
                })
            } else {
                None
            }
        }
        _ => None,
    }
}
