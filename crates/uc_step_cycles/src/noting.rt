//! The places of statements that may write a cell with a flag.

ghost use Rattle.std.specs.Prelude.{◌≡◌, false, slice_index_or};
ghost use Rattle.std.specs.List.{flat_map, list_any};
ghost use Rattle.uc_rules.specs.Faults.{first_of};
ghost use Rattle.uc_step_cycles.specs.Noted.{is_flagged, noted_act, noted_all, noted_block};

use crate::{Act, Block, Names};
use uc_rules::{Fault, Rule, note_where};
use uc_uses::Step;

/// Notes the statements that may write a cell with a flag, in all blocks that are stepped.
pub(crate) fn note_blocks(
    names: &Names<'_, '_>,
    flags: &[bool],
    blocks: &[Block],
    first: &mut Option<Fault>,
)
    ensures { first.new ≡ first_of first.old (noted_all names.now flags.now blocks.now) }
{
    for (node, block) in blocks.iter().enumerate() {
        note_block(names, flags, node, block, first);
    }
}

fn note_block(
    names: &Names<'_, '_>,
    flags: &[bool],
    node: usize,
    block: &Block,
    first: &mut Option<Fault>,
)
    ensures { first.new ≡ first_of first.old (noted_block names.now flags.now node block.now) }
{
    if block.is_stepped {
        note_acts(names, flags, node, block.acts.acts.as_slice(), first);
    }
}

fn note_acts(
    names: &Names<'_, '_>,
    flags: &[bool],
    node: usize,
    acts: &[Act],
    first: &mut Option<Fault>,
)
    ensures { first.new ≡ first_of first.old (flat_map (noted_act names.now flags.now node) acts.now) }
{
    for act in acts {
        note_act(names, flags, node, act, first);
    }
}

fn note_act(
    names: &Names<'_, '_>,
    flags: &[bool],
    node: usize,
    act: &Act,
    first: &mut Option<Fault>,
)
    ensures { first.new ≡ first_of first.old (noted_act names.now flags.now node act.now) }
{
    match act {
        Act::Writes(writing) => {
            let found = writes_flagged(names, flags, node, writing.written.as_slice());
            note_where(first, found, Rule::CyclicStep, writing.place);
        }
        Act::Steps(_, _) => {}
    }
}

/// Whether some of these names of a node stands for a cell with a flag.
fn writes_flagged(names: &Names<'_, '_>, flags: &[bool], node: usize, written: &[u32]) -> bool
    ensures { result ≡ list_any (is_flagged names.now flags.now node) written.now }
{
    written
        .iter()
        .any(|name| is_flagged(names, flags, node, *name))
}

fn is_flagged(names: &Names<'_, '_>, flags: &[bool], node: usize, name: u32) -> bool
    ensures { result ≡ is_flagged names.now flags.now node name }
{
    match names.cells.written(names.tree, Step { node, name }) {
        None => false,
        Some(number) => flag_at(flags, number),
    }
}

pub(crate) fn flag_at(flags: &[bool], number: usize) -> bool
    ensures { result ≡ slice_index_or flags.now number false }
{
    match flags.get(number) {
        None => false,
        Some(flag) => *flag,
    }
}
