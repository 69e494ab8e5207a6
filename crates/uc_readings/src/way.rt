//! A name as it is reached through the instances that are selected.

ghost use Rattle.std.specs.Prelude.{◌≡◌, ◌≤◌, length, drop, IfOk, is_some};
ghost use Rattle.std.specs.Option.{option_and_then};
ghost use Rattle.uc_meaning.specs.Lookup.{module_at, instance_of};
ghost use Rattle.uc_meaning.specs.Expressions.{reached, arrives};
ghost use Rattle.uc_lookup.specs.Parts.{system_in};
ghost use Rattle.uc_readings.specs.Scopes.{scope_in};
ghost use Rattle.uc_readings.specs.Scopes.{reached_scope};

use crate::scope::ScopeRef;
use std::alloc::{AllocError, Global};
use uc_items::Items;
use uc_lookup::{SystemRef, instance_of};
use uc_syntax::{Expr, Selection};

/// A name in the scope of an instance, whose path may be longer, or of a copy; and how many selections lead there.
#[derive(Drop)]
pub struct Arrival {
    pub path: Items<u32>,
    pub is_inside: bool,
    pub copy: Option<u128>,
    pub name: u32,
    pub used: usize,
}

impl Arrival {
    /// The scope in which the name is read, where it is reached from another one.
    pub fn scope<'b, 'f: 'b>(&'b self, from: &ScopeRef<'f>) -> ScopeRef<'b>
        ensures { scope_in result ≡ reached_scope (scope_in from.now) self.now }
    {
        let locals = if self.is_inside { &[] } else { from.locals };
        let here = ScopeRef {
            path: self.path.as_slice(),
            locals,
            ..*from
        };
        match self.copy {
            Some(number) => here.at_copy(number),
            None => here,
        }
    }
}

/// A name with its selections, those of instances and of a copy followed.
#[tactic(auto, using(crate::proofs::Arriving::moves, crate::proofs::Arriving::stops_at_field, crate::proofs::Arriving::stops_at_copy, crate::proofs::Arriving::stops_at_other, crate::proofs::Arriving::stops_at_end, crate::proofs::Arriving::starts))]
pub fn reached(
    alloc: Global,
    system: &SystemRef<'_>,
    scope: &ScopeRef<'_>,
    name: u32,
    is_primed: bool,
    selections: &[Selection<Expr>],
) -> Result<Arrival, AllocError>
    ensures within { IfOk result (λ r. r.used ≤ length selections.now) }
    ensures is { IfOk result (λ r. reached (system_in system.now) (scope_in scope.now) name is_primed selections.now ≡ arrives (reached_scope (scope_in scope.now) r) r.name is_primed (drop r.used selections.now)) }
{
    let mut path = Items::from_slice(alloc, scope.path)?;
    let mut is_inside = false;
    let mut here = name;
    for (used, selection) in selections.iter().enumerate() {
        match selection {
            Selection::Field(_, inner) => {
                if !is_instance(system, path.as_slice(), here) {
                    return Ok(Arrival {
                        path,
                        is_inside,
                        copy: None,
                        name: here,
                        used,
                    });
                }
                path.push(here)?;
                is_inside = true;
                here = inner.name;
            }
            Selection::Copy(_, number) => {
                return Ok(Arrival {
                    path,
                    is_inside,
                    copy: Some(*number),
                    name: here,
                    used: used + 1,
                });
            }
            _ => {
                return Ok(Arrival {
                    path,
                    is_inside,
                    copy: None,
                    name: here,
                    used,
                });
            }
        }
    }
    Ok(Arrival {
        path,
        is_inside,
        copy: None,
        name: here,
        used: selections.len(),
    })
}

/// Whether a name is that of an instance.
fn is_instance(system: &SystemRef<'_>, path: &[u32], name: u32) -> bool
    ensures { result ≡ is_some (option_and_then (λ m. instance_of m name) (module_at (system_in system.now) path.now)) }
{
    match system.module_at(path) {
        Some(code) => instance_of(code.decls.as_slice(), name).is_some(),
        None => false,
    }
}
