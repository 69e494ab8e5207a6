//! Blocks that a module has again.

ghost use Rattle.std.specs.Prelude.{◌≡◌, ◌||◌};
ghost use Rattle.std.specs.Option.{is_some};
ghost use Rattle.uc_rules.specs.Faults.{first_of};
ghost use Rattle.uc_rules.specs.Declarations.{control_place, init_place, next_place, repeated_block};
ghost use Rattle.uc_type_names.specs.Blocks.{again_at, block_place};

use uc_rules::{Fault, Rule, note_where};
use uc_syntax::{Decl, Module, Place};

/// The blocks of which a module has one at most.
#[derive(Clone, Copy, Debug, PartialEq, Eq)]
pub enum Block {
    Init,
    Next,
    Control,
}

/// Notes each block of a kind after the first one of a module. It takes no memory.
#[tactic(auto, using(crate::proofs::BlockTurns::blocks_begin, crate::proofs::BlockTurns::blocks_end))]
pub fn note_repeated_block(block: Block, whole: &Module, first: &mut Option<Fault>)
    ensures { first.new ≡ first_of first.old (repeated_block (block_place block) whole.now) }
{
    let mut is_there = false;
    let declarations = whole.decls.as_slice();
    for declaration in declarations {
        is_there = enter(is_there, block_place(block, declaration), first);
    }
}

/// Whether there is a block now. It is noted where one was there before.
#[tactic(auto, unfolding(uc_rules::specs::Faults::first_of))]
fn enter(is_there: bool, place: Option<Place>, first: &mut Option<Fault>) -> bool
    ensures there { result ≡ (is_there || is_some place) }
    ensures faults { first.new ≡ first_of first.old (again_at is_there place) }
{
    match place {
        Some(place) => {
            note_where(first, is_there, Rule::DuplicateName, place);
            true
        }
        None => is_there,
    }
}

fn block_place(block: Block, declaration: &Decl) -> Option<Place>
    ensures { result ≡ block_place block declaration.now }
{
    match block {
        Block::Init => init_place(declaration),
        Block::Next => next_place(declaration),
        Block::Control => control_place(declaration),
    }
}

fn init_place(declaration: &Decl) -> Option<Place>
    ensures { result ≡ init_place declaration.now }
{
    match declaration {
        Decl::Init(place, _) => Some(*place),
        _ => None,
    }
}

fn next_place(declaration: &Decl) -> Option<Place>
    ensures { result ≡ next_place declaration.now }
{
    match declaration {
        Decl::Next(place, _) => Some(*place),
        _ => None,
    }
}

fn control_place(declaration: &Decl) -> Option<Place>
    ensures { result ≡ control_place declaration.now }
{
    match declaration {
        Decl::Control(place, _) => Some(*place),
        _ => None,
    }
}
