//! Names that become known: locals and loop variables.

ghost use Rattle.std.specs.Prelude.{◌≡◌, ◌||◌, ◌∷◌, OnOk};
ghost use Rattle.uc_rules.specs.Faults.{breaks_where, first_of};
ghost use Rattle.uc_rules.specs.Names.{is_name_of, names_one_of, repeated_in_scope};
ghost use Rattle.uc_rules.specs.Statements.{binds, bound_names, declare_faults};
ghost use Rattle.uc_rules.specs.Types.{type_of};
ghost use Rattle.uc_rules.specs.declared.known.Role.TheVariants.{Local};
ghost use Rattle.uc_rules.specs.declared.rule.Rule.TheVariants.{DuplicateName};
ghost use Rattle.uc_statement_rules.specs.Judging.{Declares, JudgesAfter};

use std::alloc::{AllocError, Global};
use uc_read_names::{Scope, copy_type};
use uc_rules::{Fault, Known, Role, Rule, note_where};
use uc_syntax::{Identifier, Place, TypeExpr};
use uc_values::Ty;

/// Notes a name that is one of the module, of an enclosing scope, or that of a function on bits.
pub(crate) fn note_taken(scope: &Scope<'_, '_>, identifier: Identifier, first: &mut Option<Fault>)
    ensures { first.new ≡ first_of first.old (breaks_where (is_name_of scope.now.system scope.now.home identifier.name || names_one_of (bound_names scope.now) identifier.name) DuplicateName identifier.place) }
{
    let is_taken = scope.has_name(identifier.name) || scope.has_local(identifier.name);
    note_where(first, is_taken, Rule::DuplicateName, identifier.place);
}

/// Makes a name known that stands for a value. It is noted where it is taken. After want of memory it is not known.
pub fn note_declared(
    alloc: Global,
    scope: &mut Scope<'_, '_>,
    role: Role,
    identifier: Identifier,
    ty: &Option<Ty>,
    first: &mut Option<Fault>,
) -> Result<(), AllocError>
    ensures faults { OnOk result (first.new ≡ first_of first.old (breaks_where (is_name_of scope.old.system scope.old.home identifier.name || names_one_of (bound_names scope.old) identifier.name) DuplicateName identifier.place)) }
    ensures scope { OnOk result (scope.new ≡ record scope.old { bound = record { name = identifier.name; role = role; ty = ty.now } ∷ scope.old.bound }) }
{
    note_taken(scope, identifier, first);
    let ty = copy_type(alloc, ty)?;
    let name = identifier.name;
    scope.bind(Known { name, role, ty })
}

/// Makes names known, which are of one type.
fn note_all_declared(
    alloc: Global,
    scope: &mut Scope<'_, '_>,
    role: Role,
    identifiers: &[Identifier],
    ty: &Option<Ty>,
    first: &mut Option<Fault>,
) -> Result<(), AllocError>
    ensures { OnOk result (Declares scope.old role identifiers.now ty.now first.old first.new scope.new) }
{
    for identifier in identifiers {
        note_declared(alloc, scope, role, *identifier, ty, first)?;
    }
    Ok(())
}

/// Notes the faults of a declaration of locals, which are known in what follows.
pub(crate) fn judge_local(
    alloc: Global,
    scope: &mut Scope<'_, '_>,
    place: Place,
    identifiers: &[Identifier],
    ty: &TypeExpr,
    first: &mut Option<Fault>,
) -> Result<(), AllocError>
    ensures { OnOk result (JudgesAfter first.old first.new scope.new (declare_faults scope.old place identifiers.now ty.now) (binds scope.old Local identifiers.now (type_of scope.old.system scope.old.home ty.now))) }
{
    note_where(first, scope.is_in_next(), Rule::BadPrime, place);
    let ty = scope.note_type(alloc, ty, first)?;
    note_all_declared(alloc, scope, Role::Local, identifiers, &ty, first)
}
