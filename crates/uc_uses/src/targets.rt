//! The expressions in the targets and the sources of a statement, by reference.

ghost use Rattle.std.specs.Prelude.{◌≡◌, ◌++◌, ◌∷◌, [], OnOk};
ghost use Rattle.std.specs.List.{flat_map};
ghost use Rattle.uc_order_rules.specs.Mentions.{part_index, target_indices};
ghost use Rattle.uc_uses.specs.Lent.{lent};

use std::alloc::AllocError;
use uc_items::Items;
use uc_syntax::{Expr, Target, TargetPart};

pub(crate) fn push<'a>(expression: &'a Expr, found: &mut Items<&'a Expr>) -> Result<(), AllocError>
    ensures { OnOk result (lent found.new ≡ lent found.old ++ expression.now ∷ []) }
{
    found.push(expression)?;
    Ok(())
}

/// Adds expressions.
pub fn add_all<'a>(expressions: &'a [Expr], found: &mut Items<&'a Expr>) -> Result<(), AllocError>
    ensures { OnOk result (lent found.new ≡ lent found.old ++ expressions.now) }
{
    for expression in expressions {
        push(expression, found)?;
    }
    Ok(())
}

/// Adds the indices in targets.
pub fn add_indices<'a>(targets: &'a [Target], found: &mut Items<&'a Expr>) -> Result<(), AllocError>
    ensures { OnOk result (lent found.new ≡ lent found.old ++ target_indices targets.now) }
{
    for target in targets {
        add_parts(target.parts.as_slice(), found)?;
    }
    Ok(())
}

fn add_parts<'a>(parts: &'a [TargetPart], found: &mut Items<&'a Expr>) -> Result<(), AllocError>
    ensures { OnOk result (lent found.new ≡ lent found.old ++ flat_map part_index parts.now) }
{
    for part in parts {
        add_part(part, found)?;
    }
    Ok(())
}

fn add_part<'a>(part: &'a TargetPart, found: &mut Items<&'a Expr>) -> Result<(), AllocError>
    ensures { OnOk result (lent found.new ≡ lent found.old ++ part_index part.now) }
{
    match part {
        TargetPart::Field(_, _) => Ok(()),
        TargetPart::Element(_, index) => {
            push(index, found)?;
            Ok(())
        }
    }
}
