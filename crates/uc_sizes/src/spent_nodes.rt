//! The nodes of an expression, with those of what it uses.

ghost use Rattle.std.specs.Prelude.{◌≡◌, IfOk};
ghost use Rattle.uc_sizes.specs.Counting.{Setting, cost, costs, nodes_in, weight};
ghost use Rattle.uc_order_rules.specs.Sizes.{body_nodes, name_nodes, nodes_through, size};
ghost use Rattle.uc_order_rules.specs.Roots.{led};
ghost use Rattle.uc_order_rules.specs.Mentions.{dotted};
ghost use Rattle.uc_lookup.specs.Parts.{system_in};
ghost use Rattle.uc_meaning.specs.Lookup.{define_of, module_at};
ghost use Rattle.std.specs.Option.{option_and_then, option_copied, option_map};
ghost use Rattle.uc_sizes.specs.Spending.{Spends, at_level, size_in};

use crate::spent::{Halt, Spent};
use crate::way::{bound_input, led, prefix};
use crate::{Counted, Use, add_nodes};
use std::alloc::{AllocError, Global};
use uc_lookup::{SystemRef, define_of};
use uc_syntax::{Expr, Selection};

/// Counts the nodes of an expression at a path, where defines and bindings are followed through at most so many levels, the expression
/// being the first.
#[cycle(spend_nodes)]
pub fn spend_nodes(
    alloc: Global,
    system: &SystemRef<'_>,
    levels: u32,
    path: &[u32],
    expression: &Expr,
    spent: &mut Spent,
) -> Result<(), Halt>
    ensures { Spends (size_in spent.old) (size_in spent.new) result (size 0 (nodes_through levels (system_in system.now) path.now expression.now)) }
{
    if levels == 0 {
        return Ok(());
    }
    let counted = counted_in(alloc, expression)?;
    spend_counted(alloc, system, levels - 1, path, &counted, spent)
}

/// The nodes of an expression in the text, and what it uses.
fn counted_in<'a>(alloc: Global, expression: &'a Expr) -> Result<Counted<'a>, AllocError>
    ensures { IfOk result (λ k. (c : Setting) → weight c k ≡ nodes_in c expression.now) }
{
    let mut counted = Counted::new(alloc);
    add_nodes(expression, &mut counted)?;
    Ok(counted)
}

/// Counts nodes, and those of what is used.
#[cycle(spend_nodes)]
fn spend_counted(
    alloc: Global,
    system: &SystemRef<'_>,
    below: u32,
    path: &[u32],
    counted: &Counted<'_>,
    spent: &mut Spent,
) -> Result<(), Halt>
    ensures { Spends (size_in spent.old) (size_in spent.new) result (size 0 (weight (at_level (system_in system.now) below path.now) counted.now)) }
{
    spent.spend(0, u128::from(counted.nodes))?;
    spend_uses(alloc, system, below, path, counted.uses.as_slice(), spent)
}

#[cycle(spend_nodes)]
fn spend_uses(
    alloc: Global,
    system: &SystemRef<'_>,
    below: u32,
    path: &[u32],
    uses: &[Use<'_>],
    spent: &mut Spent,
) -> Result<(), Halt>
    ensures { Spends (size_in spent.old) (size_in spent.new) result (size 0 (costs (at_level (system_in system.now) below path.now) uses.now)) }
{
    for used in uses {
        spend_use(alloc, system, below, path, *used, spent)?;
    }
    Ok(())
}

#[cycle(spend_nodes)]
fn spend_use(
    alloc: Global,
    system: &SystemRef<'_>,
    below: u32,
    path: &[u32],
    used: Use<'_>,
    spent: &mut Spent,
) -> Result<(), Halt>
    ensures { Spends (size_in spent.old) (size_in spent.new) result (size 0 (cost (at_level (system_in system.now) below path.now) used.entry)) }
{
    match used {
        Use::Name(name, selections) => {
            spend_name(alloc, system, below, path, name, selections, spent)
        }
        Use::Applied(name) => spend_applied(alloc, system, below, path, name, spent),
    }
}

/// Counts the nodes of what is bound to the input that a name leads to, if it does.
#[cycle(spend_nodes)]
fn spend_name(
    alloc: Global,
    system: &SystemRef<'_>,
    below: u32,
    path: &[u32],
    name: u32,
    selections: &[Selection<Expr>],
    spent: &mut Spent,
) -> Result<(), Halt>
    ensures { Spends (size_in spent.old) (size_in spent.new) result (size 0 (name_nodes (system_in system.now) (nodes_through below (system_in system.now)) (led (system_in system.now) path.now name (dotted selections.now)))) }
{
    let there = led(alloc, system, path, name, selections)?;
    match bound_input(system, there.path.as_slice(), there.name) {
        Some(bound) => {
            let parent = prefix(there.path.as_slice(), bound.depth);
            spend_nodes(alloc, system, below, parent, bound.expression, spent)
        }
        None => Ok(()),
    }
}

/// Counts the nodes of the body of a define, where there is one of the name.
#[cycle(spend_nodes)]
fn spend_applied(
    alloc: Global,
    system: &SystemRef<'_>,
    below: u32,
    path: &[u32],
    name: u32,
    spent: &mut Spent,
) -> Result<(), Halt>
    ensures { Spends (size_in spent.old) (size_in spent.new) result (size 0 (body_nodes (nodes_through below (system_in system.now)) path.now (option_and_then (λ m. define_of m name) (module_at (system_in system.now) path.now)))) }
{
    match body_of(system, path, name) {
        Some(body) => spend_nodes(alloc, system, below, path, body, spent),
        None => Ok(()),
    }
}

/// The body of a define of the module at a path.
fn body_of<'a>(system: &SystemRef<'a>, path: &[u32], name: u32) -> Option<&'a Expr>
    ensures { option_copied result ≡ option_map (λ d. d.body) (option_and_then (λ m. define_of m name) (module_at (system_in system.now) path.now)) }
{
    let code = system.module_at(path)?;
    let defined = define_of(code.decls.as_slice(), name)?;
    Some(defined.body)
}
