//! The words of all subterms, from the inputs upwards.

ghost use Rattle.std.specs.Prelude.{◌≡◌, ◌<◌, [], ◌∷◌, true, false, length, IfOk, OnOk};
ghost use Rattle.uc_terms.specs.Subterms.{AreSubterms};
ghost use Rattle.uc_circuit.specs.Building.{Grows, size};
ghost use Rattle.uc_blast.specs.Blasting.{IsBlastable};
ghost use Rattle.uc_blast.specs.Walk.{AreInputs, AreStanding, IsReady, GivesAt, IsStep, atomic_at};

use crate::dispatch::operation_word;
use crate::inputs::{Inputs, count, is_atomic};
use std::alloc::{AllocError, Global};
use uc_circuit::{Gates, Signal};
use uc_items::Items;
use uc_log::Atom;
use uc_terms::{TermId, Terms};

/// A circuit, what its inputs stand for, and by number the words of the subterms.
#[derive(Drop)]
pub(crate) struct Built {
    pub(crate) atoms: Vec<Atom>,
    pub(crate) gates: Gates,
    pub(crate) words: Vec<Items<Signal>>,
}

/// The circuit of the terms that are marked, over the inputs for the opaque ones. Takes a step for each number up to the term's.
pub(crate) fn build(
    alloc: Global,
    terms: &Terms,
    t: TermId,
    marks: &[bool],
    inputs: Inputs,
) -> Result<Built, AllocError>
    requires blastable { IsBlastable terms.now t }
    requires marks { AreSubterms terms.now (t ∷ []) marks.now }
    requires inputs { AreInputs terms.now t marks.now (length marks.now) inputs.atoms.items inputs.words.items }
    ensures atoms { IfOk result (λ b. b.atoms.items ≡ inputs.atoms.items) }
    ensures stands { IfOk result (λ b. AreStanding terms.now marks.now (length marks.now) b.atoms.items b.gates b.words.items) }
{
    let _well_typed = terms.nodes();
    let Inputs { atoms, mut words } = inputs;
    let total = count(atoms.as_slice())?;
    let mut gates = Gates::new(alloc, total);
    for place in 0..marks.len() {
        step(alloc, terms, marks[place], place, &mut gates, &mut words)?;
    }
    Ok(Built {
        atoms,
        gates,
        words,
    })
}

/// Sets the word of the term at a place, where it is marked and not opaque.
fn step(
    alloc: Global,
    terms: &Terms,
    marked: bool,
    place: usize,
    gates: &mut Gates,
    words: &mut Vec<Items<Signal>>,
) -> Result<(), AllocError>
    requires there { place < length terms.now }
    requires within { place < length words.old.items }
    requires ready { marked ≡ true → atomic_at terms.now place ≡ false → IsReady terms.now (size gates.old) words.old.items place }
    ensures { OnOk result (IsStep terms.now marked place gates.old gates.new words.old.items words.new.items) }
{
    let node = terms.node(place);
    if !marked {
        return Ok(());
    }
    if is_atomic(&node.op) {
        return Ok(());
    }
    let word = word_at(alloc, terms, place, gates, words.as_slice())?;
    words[place] = word;
    Ok(())
}

/// The word of the term at a place, from those of its parts.
fn word_at(
    alloc: Global,
    terms: &Terms,
    place: usize,
    gates: &mut Gates,
    words: &[Items<Signal>],
) -> Result<Items<Signal>, AllocError>
    requires there { place < length terms.now }
    requires ready { IsReady terms.now (size gates.old) words.now place }
    ensures grows { Grows gates.old gates.new }
    ensures ok { IfOk result (GivesAt terms.now gates.new words.now place) }
{
    let nodes = terms.nodes();
    let node = terms.node(place);
    operation_word(alloc, gates, &node.op, nodes, words, node.parts.as_slice())
}
