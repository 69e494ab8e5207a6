//! What procedures mention.

ghost use Rattle.std.specs.Prelude.{◌≡◌, ◌++◌, [], ◌∷◌, IfOk, OnOk};
ghost use Rattle.std.specs.List.{flat_map};
ghost use Rattle.uc_order_rules.specs.Mentions.{mentions};
ghost use Rattle.uc_order_rules.specs.Uses.{clause_expressions};
ghost use Rattle.uc_uses.specs.Lent.{lent};
ghost use Rattle.uc_uses.specs.Meant.{meant};
ghost use Rattle.uc_uses.specs.Resolving.{mentions_in};

use crate::{Mentioned, add_mentions, expressions_in};
use std::alloc::{AllocError, Global};
use uc_items::Items;
use uc_syntax::{Clause, Expr, Procedure};

/// What the clauses and the body of a procedure mention.
pub(crate) fn mentions_in(
    alloc: Global,
    procedure: &Procedure,
) -> Result<Items<Mentioned>, AllocError>
    ensures { IfOk result (λ ms. meant ms ≡ mentions_in procedure.now) }
{
    let expressions = expressions_in(alloc, procedure.body.as_slice())?;
    let mut found = Items::new(alloc);
    add_in_clauses(alloc, procedure.clauses.as_slice(), &mut found)?;
    add_in_all(alloc, expressions.as_slice(), &mut found)?;
    Ok(found)
}

fn add_in_clauses(
    alloc: Global,
    clauses: &[Clause],
    found: &mut Items<Mentioned>,
) -> Result<(), AllocError>
    ensures { OnOk result (meant found.new ≡ meant found.old ++ flat_map mentions (flat_map clause_expressions clauses.now)) }
{
    for clause in clauses {
        add_in_clause(alloc, clause, found)?;
    }
    Ok(())
}

fn add_in_clause(
    alloc: Global,
    clause: &Clause,
    found: &mut Items<Mentioned>,
) -> Result<(), AllocError>
    ensures { OnOk result (meant found.new ≡ meant found.old ++ flat_map mentions (clause_expressions clause.now)) }
{
    match clause {
        Clause::Requires(_, condition) => {
            add_mentions(alloc, condition, found)?;
            Ok(())
        }
        Clause::Ensures(_, condition) => {
            add_mentions(alloc, condition, found)?;
            Ok(())
        }
        Clause::Modifies(_, _) => Ok(()),
    }
}

fn add_in_all(
    alloc: Global,
    expressions: &[&Expr],
    found: &mut Items<Mentioned>,
) -> Result<(), AllocError>
    ensures { OnOk result (meant found.new ≡ meant found.old ++ flat_map mentions (lent expressions.now)) }
{
    for expression in expressions {
        add_mentions(alloc, *expression, found)?;
    }
    Ok(())
}
