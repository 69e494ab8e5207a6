//! The graph of the uses of a tree.

ghost use Rattle.std.specs.Prelude.{◌≡◌, ◌++◌, IfOk, OnOk};
ghost use Rattle.std.specs.List.{flat_map};
ghost use Rattle.uc_order_rules.specs.Mentions.{calls_in, mentions};
ghost use Rattle.uc_uses.specs.Resolving.{IsGraph, call_numbers, mentions_in, names_among, source_names, source_uses, uses_among};
ghost use Rattle.uc_uses.specs.Sources.{source_meant};

use crate::mentioned_uses::mentions_in;
use crate::resolving::Found;
use crate::table::UseTable;
use crate::uses::Source;
use crate::{InstanceTree, Step, add_mentions, calls_in};
use std::alloc::{AllocError, Global};
use uc_items::Items;
use uc_syntax::{Expr, Procedure};

/// For each use the numbers of what it uses, and the names that it reads that are no bound inputs.
#[derive(Drop)]
pub struct UseGraph {
    uses: Items<Items<usize>>,
    names: Items<Items<Step>>,
}

impl UseGraph {
    /// The numbers of what each use uses. The number past all uses stands for procedures that aren't declared.
    pub fn uses(&self) -> &[Items<usize>]
        ensures { result.now ≡ self.now.uses }
    {
        self.uses.as_slice()
    }

    /// The names that each use reads that are no bound inputs.
    pub fn names(&self) -> &[Items<Step>]
        ensures { result.now ≡ self.now.names }
    {
        self.names.as_slice()
    }
}

/// The graph of all uses.
pub fn use_graph<'a>(
    alloc: Global,
    tree: &InstanceTree<'a>,
    table: &UseTable<'a>,
) -> Result<UseGraph, AllocError>
    ensures { IfOk result (λ g. IsGraph tree.now table.now g) }
{
    let mut uses = Items::new(alloc);
    let mut names = Items::new(alloc);
    for used in table.uses() {
        let found = found_in(alloc, tree, table, used.source)?;
        uses.push(found.uses)?;
        names.push(found.names)?;
    }
    Ok(UseGraph { uses, names })
}

/// What a text uses and reads.
fn found_in<'a>(
    alloc: Global,
    tree: &InstanceTree<'a>,
    table: &UseTable<'a>,
    source: Source<'a>,
) -> Result<Found, AllocError>
    ensures uses { IfOk result (λ f. f.uses ≡ source_uses tree.now table.now (source_meant source.entry)) }
    ensures names { IfOk result (λ f. f.names ≡ source_names tree.now table.now (source_meant source.entry)) }
{
    let mut found = Found::new(alloc);
    match source {
        Source::Expression(node, expression) => {
            add_expression(alloc, tree, table, node, expression, &mut found)?;
        }
        Source::Procedure(node, procedure) => {
            add_procedure(alloc, tree, table, node, procedure, &mut found)?;
        }
    }
    Ok(found)
}

fn add_expression<'a>(
    alloc: Global,
    tree: &InstanceTree<'a>,
    table: &UseTable<'a>,
    node: usize,
    expression: &Expr,
    found: &mut Found,
) -> Result<(), AllocError>
    ensures uses { OnOk result (found.new.uses ≡ found.old.uses ++ uses_among tree.now table.now node (mentions expression.now)) }
    ensures names { OnOk result (found.new.names ≡ found.old.names ++ names_among tree.now table.now node (mentions expression.now)) }
{
    let mut mentions = Items::new(alloc);
    add_mentions(alloc, expression, &mut mentions)?;
    found.add_mentions(tree, table, node, mentions.as_slice())?;
    Ok(())
}

fn add_procedure<'a>(
    alloc: Global,
    tree: &InstanceTree<'a>,
    table: &UseTable<'a>,
    node: usize,
    procedure: &Procedure,
    found: &mut Found,
) -> Result<(), AllocError>
    ensures uses { OnOk result (found.new.uses ≡ found.old.uses ++ (call_numbers table.now node (flat_map calls_in procedure.now.body) ++ uses_among tree.now table.now node (mentions_in procedure.now))) }
    ensures names { OnOk result (found.new.names ≡ found.old.names ++ names_among tree.now table.now node (mentions_in procedure.now)) }
{
    let called = calls_in(alloc, procedure.body.as_slice())?;
    found.add_calls(table, node, called.as_slice())?;
    let mentions = mentions_in(alloc, procedure)?;
    found.add_mentions(tree, table, node, mentions.as_slice())?;
    Ok(())
}
