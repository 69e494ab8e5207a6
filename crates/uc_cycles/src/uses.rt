//! The defines of a module as the nodes of a graph, by the places of their declarations.

ghost use Rattle.std.specs.Prelude.{◌≡◌, ◌+◌, ◌∷◌, [], ℕ, Bool, Some, length, replicate, slice_get, IfOk, List, OnOk};
ghost use Rattle.std.specs.Option.{option_map};
ghost use Rattle.uc_syntax.specs.declared.declaration.Decl.{Decl as DeclParts};
ghost use Rattle.uc_lookup.specs.Parts.{defined_parts};
ghost use Rattle.uc_names.specs.Senses.{module_in};
ghost use Rattle.uc_rules.specs.Reads.{parameter_names, reads_by};
ghost use Rattle.uc_cycles.specs.Found.{reads_found};
ghost use Rattle.uc_cycles.specs.Uses.{AddsDirect, AddsUsers, KnowsCalls, UsesTo, first_at, is_place};

use crate::bodies::note_reads;
use crate::bound::Bound;
use crate::called::calls_of;
use crate::found::Found;
use std::alloc::{AllocError, Global};
use uc_graph::Lists;
use uc_items::Items;
use uc_lookup::Defined;
use uc_names::{Firsts, TypeHomes};
use uc_syntax::Decl;

/// What names apply, by the place of the declaration. For each such place, the places of the defines that apply it. The defines that read
/// state outside other defines.
#[derive(Drop)]
pub(crate) struct Uses {
    pub(crate) calls: Firsts<usize>,
    pub(crate) users: Lists,
    pub(crate) direct: Items<usize>,
}

/// The defines of the module at a place, whose declarations these are.
pub(crate) fn uses_of(
    alloc: Global,
    homes: &TypeHomes<'_>,
    home: usize,
    declarations: &[Decl],
) -> Result<Uses, AllocError>
    requires { declarations.now ≡ (module_in homes.now.modules home).decls }
    ensures { IfOk result (λ u. UsesTo homes.now (module_in homes.now.modules home) u (length declarations.now)) }
{
    let mut uses = no_uses(alloc, declarations)?;
    for (number, declaration) in declarations.iter().enumerate() {
        uses.enter(alloc, homes, home, number, declaration)?;
    }
    Ok(uses)
}

/// No define is entered.
fn no_uses(alloc: Global, declarations: &[Decl]) -> Result<Uses, AllocError>
    ensures calls { IfOk result (λ u. KnowsCalls declarations.now u.calls) }
    ensures users { IfOk result (λ u. u.users ≡ replicate (length declarations.now) []) }
    ensures direct { IfOk result (λ u. u.direct ≡ []) }
{
    let calls = calls_of(alloc, declarations)?;
    let users = Lists::new(alloc, declarations.len())?;
    let direct = Items::new(alloc);
    Ok(Uses {
        calls,
        users,
        direct,
    })
}

/// The define that a declaration at a place declares, where no function and no define of its name stands before it.
fn define_at<'a>(calls: &Firsts<usize>, number: usize, declaration: &'a Decl) -> Option<Defined<'a>>
    ensures { (ds : List DeclParts) → KnowsCalls ds calls.now → option_map defined_parts result ≡ first_at ds number (Some declaration.now) }
{
    match declaration {
        Decl::Define(_, identifier, parameters, ty, body) => {
            if !is_place(calls.get(identifier.name), number) {
                return None;
            }
            Some(Defined {
                parameters: parameters.as_slice(),
                ty,
                body,
            })
        }
        _ => None,
    }
}

fn is_place(found: Option<usize>, place: usize) -> bool
    ensures { result ≡ is_place found place }
{
    match found {
        Some(number) => number == place,
        None => false,
    }
}

/// What is found in the body of a define of the module at a place.
fn found_in(
    alloc: Global,
    homes: &TypeHomes<'_>,
    home: usize,
    defined: &Defined<'_>,
) -> Result<Found, AllocError>
    ensures { IfOk result (λ f. (by : ℕ → Bool) → reads_found by f ≡ reads_by homes.now (module_in homes.now.modules home) (parameter_names defined.now.parameters.now) by defined.now.body.now) }
{
    let bound = Bound::of(alloc, defined.parameters)?;
    let mut found = Found::new(alloc);
    note_reads(homes, home, &bound, defined.body, &mut found)?;
    Ok(found)
}

impl Uses {
    /// Enters the declaration at a place, where all before it are entered.
    fn enter(
        &mut self,
        alloc: Global,
        homes: &TypeHomes<'_>,
        home: usize,
        number: usize,
        declaration: &Decl,
    ) -> Result<(), AllocError>
        ensures { OnOk result (slice_get (module_in homes.now.modules home).decls number ≡ Some declaration.now → UsesTo homes.now (module_in homes.now.modules home) self.old number → UsesTo homes.now (module_in homes.now.modules home) self.new (number + 1)) }
    {
        match define_at(&self.calls, number, declaration) {
            None => Ok(()),
            Some(defined) => {
                let found = found_in(alloc, homes, home, &defined)?;
                self.enter_direct(found.has_state(), number)?;
                self.enter_users(found.applied(), number)?;
                Ok(())
            }
        }
    }

    /// Enters a define that reads state outside other defines, where it does.
    fn enter_direct(&mut self, reads: bool, number: usize) -> Result<(), AllocError>
        ensures kept { OnOk result ((self.new.calls ≡ self.old.calls) × (self.new.users ≡ self.old.users)) }
        ensures direct { OnOk result (AddsDirect reads number self.old.direct self.new.direct) }
    {
        if reads {
            self.direct.push(number)?;
        }
        Ok(())
    }

    /// Enters a define that applies these names.
    fn enter_users(&mut self, applied: &[u32], number: usize) -> Result<(), AllocError>
        ensures kept { OnOk result ((self.new.calls ≡ self.old.calls) × (self.new.direct ≡ self.old.direct)) }
        ensures users { OnOk result (AddsUsers self.old.calls applied.now number self.old.users self.new.users) }
    {
        for name in applied {
            self.enter_user(*name, number)?;
        }
        Ok(())
    }

    fn enter_user(&mut self, name: u32, number: usize) -> Result<(), AllocError>
        ensures kept { OnOk result ((self.new.calls ≡ self.old.calls) × (self.new.direct ≡ self.old.direct)) }
        ensures users { OnOk result (AddsUsers self.old.calls (name ∷ []) number self.old.users self.new.users) }
    {
        match self.calls.get(name) {
            None => Ok(()),
            Some(place) => {
                self.users.add(place, number)?;
                Ok(())
            }
        }
    }
}
