//! Parameters and results.

ghost use Rattle.std.specs.Prelude.{OnOk};
ghost use Rattle.uc_declaration_rules.specs.Procedures.{NotesParameters};

use std::alloc::{AllocError, Global};
use uc_read_names::Scope;
use uc_rules::{Fault, Role};
use uc_statement_rules::note_declared;
use uc_syntax::{Parameter, TypeExpr};

/// Makes parameters or results known, and notes those whose names are taken and the faults of their types.
pub(crate) fn note_parameters(
    alloc: Global,
    scope: &mut Scope<'_, '_>,
    role: Role,
    parameters: &[Parameter<TypeExpr>],
    first: &mut Option<Fault>,
) -> Result<(), AllocError>
    ensures { OnOk result (NotesParameters scope.old role parameters.now first.old first.new scope.new) }
{
    for parameter in parameters {
        let ty = scope.note_type(alloc, &parameter.ty, first)?;
        note_declared(alloc, scope, role, parameter.identifier, &ty, first)?;
    }
    Ok(())
}
