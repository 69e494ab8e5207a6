//! The names that statements write, and those that expressions read primed.

ghost use Rattle.std.specs.Prelude.{◌≡◌, ◌++◌, ◌∷◌, [], map, IfOk, OnOk};
ghost use Rattle.std.specs.List.{flat_map};
ghost use Rattle.uc_meaning.specs.Code.{modifies_in, modifies_of};
ghost use Rattle.uc_order_rules.specs.Mentions.{target_indices};
ghost use Rattle.uc_order_rules.specs.Writes.{target_names};
ghost use Rattle.uc_uses.specs.Lent.{lent};
ghost use Rattle.uc_uses.specs.Meant.{meant, mention_meant};
ghost use Rattle.uc_step_cycles.specs.Acts.{primed_name, primed_names};

use std::alloc::{AllocError, Global};
use uc_items::Items;
use uc_syntax::{Clause, Expr, Identifier, Procedure, Target};
use uc_uses::{Mentioned, add_all, add_indices, add_mentions};

/// The names of some targets.
pub(crate) fn names_of_targets(alloc: Global, targets: &[Target]) -> Result<Items<u32>, AllocError>
    ensures { IfOk result (λ names. names ≡ target_names targets.now) }
{
    let mut names = Items::new(alloc);
    for target in targets {
        names.push(target.name)?;
    }
    Ok(names)
}

/// Adds the names that a procedure modifies.
pub(crate) fn add_modified(procedure: &Procedure, names: &mut Items<u32>) -> Result<(), AllocError>
    ensures { OnOk result (names.new ≡ names.old ++ modifies_of procedure.now) }
{
    for clause in procedure.clauses.as_slice() {
        add_in_clause(clause, names)?;
    }
    Ok(())
}

fn add_in_clause(clause: &Clause, names: &mut Items<u32>) -> Result<(), AllocError>
    ensures { OnOk result (names.new ≡ names.old ++ modifies_in clause.now) }
{
    match clause {
        Clause::Requires(_, _) => Ok(()),
        Clause::Ensures(_, _) => Ok(()),
        Clause::Modifies(_, identifiers) => {
            add_identifiers(identifiers.as_slice(), names)?;
            Ok(())
        }
    }
}

fn add_identifiers(identifiers: &[Identifier], names: &mut Items<u32>) -> Result<(), AllocError>
    ensures { OnOk result (names.new ≡ names.old ++ map (λ i. i.name) identifiers.now) }
{
    for identifier in identifiers {
        names.push(identifier.name)?;
    }
    Ok(())
}

/// The names that an expression reads primed.
pub(crate) fn primed_in(alloc: Global, expression: &Expr) -> Result<Items<u32>, AllocError>
    ensures { IfOk result (λ names. names ≡ primed_names (expression.now ∷ [])) }
{
    let mut names = Items::new(alloc);
    add_primed(alloc, expression, &mut names)?;
    Ok(names)
}

/// The names that the indices of targets and some expressions read primed.
pub(crate) fn primed_in_all(
    alloc: Global,
    targets: &[Target],
    sources: &[Expr],
) -> Result<Items<u32>, AllocError>
    ensures { IfOk result (λ names. names ≡ primed_names (target_indices targets.now ++ sources.now)) }
{
    let mut expressions = Items::new(alloc);
    add_indices(targets, &mut expressions)?;
    add_all(sources, &mut expressions)?;
    let names = primed_in_lent(alloc, expressions.as_slice())?;
    Ok(names)
}

fn primed_in_lent(alloc: Global, expressions: &[&Expr]) -> Result<Items<u32>, AllocError>
    ensures { IfOk result (λ names. names ≡ primed_names (lent expressions.now)) }
{
    let mut names = Items::new(alloc);
    for expression in expressions {
        add_primed(alloc, *expression, &mut names)?;
    }
    Ok(names)
}

fn add_primed(alloc: Global, expression: &Expr, names: &mut Items<u32>) -> Result<(), AllocError>
    ensures { OnOk result (names.new ≡ names.old ++ primed_names (expression.now ∷ [])) }
{
    let mut found = Items::new(alloc);
    add_mentions(alloc, expression, &mut found)?;
    add_primed_of(found.as_slice(), names)?;
    Ok(())
}

fn add_primed_of(found: &[Mentioned], names: &mut Items<u32>) -> Result<(), AllocError>
    ensures { OnOk result (names.new ≡ names.old ++ flat_map primed_name (meant found.now)) }
{
    for mentioned in found {
        add_one_primed(mentioned, names)?;
    }
    Ok(())
}

fn add_one_primed(mentioned: &Mentioned, names: &mut Items<u32>) -> Result<(), AllocError>
    ensures { OnOk result (names.new ≡ names.old ++ primed_name (mention_meant mentioned.now)) }
{
    match mentioned {
        Mentioned::Read(name, true, _) => {
            names.push(*name)?;
            Ok(())
        }
        Mentioned::Read(_, false, _) => Ok(()),
        Mentioned::Applied(_) => Ok(()),
        Mentioned::AtEntry(_) => Ok(()),
    }
}
