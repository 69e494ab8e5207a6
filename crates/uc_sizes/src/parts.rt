//! What modules have that counts.

ghost use Rattle.std.specs.Prelude.{◌≡◌, []};
ghost use Rattle.std.specs.List.{flat_map};
ghost use Rattle.std.specs.Option.{option_copied};
ghost use Rattle.uc_lookup.specs.Parts.{system_in};
ghost use Rattle.uc_meaning.specs.Lookup.{init_in, init_of};
ghost use Rattle.uc_meaning.specs.Cells.{as_list};
ghost use Rattle.uc_order_rules.specs.Uses.{clause_expressions};
ghost use Rattle.uc_order_rules.specs.Sizes.{code_size, formula_in, procedure_size};
ghost use Rattle.uc_sizes.specs.Spending.{Spends, size_in};
ghost use Rattle.uc_sizes.specs.Expanding.{expression_sizes};

use crate::{Halt, Spent, spend_code, spend_nodes};
use std::alloc::Global;
use uc_lookup::SystemRef;
use uc_syntax::{Clause, Decl, Expr, Module, Stmt};

/// How many levels of calls and steps code is followed through, itself being the first.
pub(crate) const CODE_LEVELS: u32 = 65;

/// How many levels of defines and bindings an expression is followed through, itself being the first.
pub(crate) const EXPRESSION_LEVELS: u32 = 33;

/// Counts the nodes of an expression, if there is one.
pub(crate) fn spend_expression(
    alloc: Global,
    system: &SystemRef<'_>,
    path: &[u32],
    expression: Option<&Expr>,
    spent: &mut Spent,
) -> Result<(), Halt>
    ensures { Spends (size_in spent.old) (size_in spent.new) result (expression_sizes (system_in system.now) path.now (as_list (option_copied expression.entry))) }
{
    match expression {
        Some(expression) => {
            spend_nodes(alloc, system, EXPRESSION_LEVELS, path, expression, spent)
        }
        None => Ok(()),
    }
}

/// Counts the init code of a module.
pub(crate) fn spend_init(
    alloc: Global,
    system: &SystemRef<'_>,
    path: &[u32],
    code: &Module,
    spent: &mut Spent,
) -> Result<(), Halt>
    ensures { Spends (size_in spent.old) (size_in spent.new) result (code_size (system_in system.now) path.now (init_of code.now)) }
{
    for declaration in code.decls.as_slice() {
        spend_code(
            alloc,
            system,
            CODE_LEVELS,
            path,
            init_in(declaration),
            spent,
        )?;
    }
    Ok(())
}

/// Counts the formulas of declarations.
pub(crate) fn spend_formulas(
    alloc: Global,
    system: &SystemRef<'_>,
    path: &[u32],
    declarations: &[Decl],
    spent: &mut Spent,
) -> Result<(), Halt>
    ensures { Spends (size_in spent.old) (size_in spent.new) result (expression_sizes (system_in system.now) path.now (flat_map formula_in declarations.now)) }
{
    for declaration in declarations {
        spend_expression(alloc, system, path, formula_in(declaration), spent)?;
    }
    Ok(())
}

/// Counts a procedure of main, whether it is called or not.
pub(crate) fn spend_procedure(
    alloc: Global,
    system: &SystemRef<'_>,
    declaration: &Decl,
    spent: &mut Spent,
) -> Result<(), Halt>
    ensures { Spends (size_in spent.old) (size_in spent.new) result (procedure_size (system_in system.now) declaration.now) }
{
    match declaration {
        Decl::Procedure(_, procedure) => {
            spend_clauses(alloc, system, procedure.clauses.as_slice(), spent)?;
            spend_code(
                alloc,
                system,
                CODE_LEVELS,
                &[],
                procedure.body.as_slice(),
                spent,
            )
        }
        _ => Ok(()),
    }
}

fn spend_clauses(
    alloc: Global,
    system: &SystemRef<'_>,
    clauses: &[Clause],
    spent: &mut Spent,
) -> Result<(), Halt>
    ensures { Spends (size_in spent.old) (size_in spent.new) result (expression_sizes (system_in system.now) [] (flat_map clause_expressions clauses.now)) }
{
    for clause in clauses {
        spend_expression(alloc, system, &[], condition_of(clause), spent)?;
    }
    Ok(())
}

/// The code of a declaration, if it is an init block.
fn init_in(declaration: &Decl) -> &[Stmt]
    ensures { result.now ≡ init_in declaration.now }
{
    match declaration {
        Decl::Init(_, block) => block.as_slice(),
        _ => &[],
    }
}

/// The formula of a declaration, but for axioms.
fn formula_in(declaration: &Decl) -> Option<&Expr>
    ensures { as_list (option_copied result) ≡ formula_in declaration.now }
{
    match declaration {
        Decl::Invariant(_, _, formula) => Some(formula),
        Decl::Hyperinvariant(_, _, _, formula) => Some(formula),
        Decl::Hyperaxiom(_, _, _, formula) => Some(formula),
        _ => None,
    }
}

/// The condition of a clause.
fn condition_of(clause: &Clause) -> Option<&Expr>
    ensures { as_list (option_copied result) ≡ clause_expressions clause.now }
{
    match clause {
        Clause::Requires(_, condition) => Some(condition),
        Clause::Ensures(_, condition) => Some(condition),
        Clause::Modifies(..) => None,
    }
}
