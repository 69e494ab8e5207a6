//! The inputs: one for each bit of each opaque subterm.

ghost use Rattle.std.specs.Prelude.{◌≡◌, ◌<◌, ◌++◌, [], ◌∷◌, length, IfOk, OnOk};
ghost use Rattle.uc_circuit.specs.Literals.{positive};
ghost use Rattle.uc_terms.specs.Subterms.{AreSubterms};
ghost use Rattle.uc_circuit.specs.declared.signal.Signal.TheVariants.{Of};
ghost use Rattle.uc_log.specs.declared.atom.Atom.TheVariants.{Bit};
ghost use Rattle.uc_blast.specs.Words.{bit_width};
ghost use Rattle.uc_blast.specs.Blasting.{IsBlastable, is_atomic};
ghost use Rattle.uc_blast.specs.Walk.{term_bits, variables_from, IsAsked, AreInputs};

use std::alloc::{AllocError, Global};
use uc_circuit::{Lit, Signal};
use uc_items::Items;
use uc_log::Atom;
use uc_terms::{Op, TermId, Terms};
use uc_values::Ty;

/// What the inputs stand for, and by number the words of the opaque subterms that are made of them.
#[derive(Drop)]
pub(crate) struct Inputs {
    pub(crate) atoms: Vec<Atom>,
    pub(crate) words: Vec<Items<Signal>>,
}

/// The inputs for the opaque terms that are marked.
pub(crate) fn make_inputs(
    alloc: Global,
    terms: &Terms,
    t: TermId,
    marks: &[bool],
) -> Result<Inputs, AllocError>
    requires blastable { IsBlastable terms.now t }
    requires marks { AreSubterms terms.now (t ∷ []) marks.now }
    ensures { IfOk result (λ i. AreInputs terms.now t marks.now (length marks.now) i.atoms.items i.words.items) }
{
    let _well_typed = terms.nodes();
    let mut atoms: Vec<Atom> = Vec::new(alloc);
    let mut words: Vec<Items<Signal>> = Vec::new(alloc);
    for place in 0..marks.len() {
        let word = input_at(alloc, terms, marks[place], place, &mut atoms)?;
        words.push(word)?;
    }
    Ok(Inputs { atoms, words })
}

/// The word of inputs for the term at a place, where it is opaque and marked.
fn input_at(
    alloc: Global,
    terms: &Terms,
    marked: bool,
    place: usize,
    atoms: &mut Vec<Atom>,
) -> Result<Items<Signal>, AllocError>
    requires { place < length terms.now }
    ensures { IfOk result (λ w. IsAsked terms.now marked place w atoms.old.items atoms.new.items) }
{
    let node = terms.node(place);
    if !marked {
        return Ok(Items::new(alloc));
    }
    if !is_atomic(&node.op) {
        return Ok(Items::new(alloc));
    }
    let word = input_word(alloc, term_at(terms, place), width(&node.ty), atoms)?;
    Ok(Items::from_vec(word))
}

/// A new input for each bit of a term of that width, and the word of these inputs.
fn input_word(
    alloc: Global,
    t: TermId,
    width: u8,
    atoms: &mut Vec<Atom>,
) -> Result<Vec<Signal>, AllocError>
    ensures word { IfOk result (λ w. w.items ≡ variables_from (length atoms.old.items) width) }
    ensures atoms { OnOk result (atoms.new.items ≡ atoms.old.items ++ term_bits t width) }
{
    let mut word: Vec<Signal> = Vec::new(alloc);
    for bit in 0..width {
        let signal = input_bit(t, bit, atoms)?;
        word.push(signal)?;
    }
    Ok(word)
}

/// A new input for a bit of a term.
fn input_bit(t: TermId, bit: u8, atoms: &mut Vec<Atom>) -> Result<Signal, AllocError>
    ensures signal { IfOk result (λ s. s ≡ Of (positive (length atoms.old.items))) }
    ensures atoms { OnOk result (atoms.new.items ≡ atoms.old.items ++ Bit t bit ∷ []) }
{
    let variable = count(atoms.as_slice())?;
    atoms.push(Atom::Bit(t, bit))?;
    Ok(Signal::Of(Lit::positive(variable)))
}

/// How many inputs there are: more than a circuit can have are as good as no memory.
pub(crate) fn count(atoms: &[Atom]) -> Result<u32, AllocError>
    ensures { IfOk result (λ n. n ≡ length atoms.now) }
{
    if atoms.len() < u32::MAX as usize {
        Ok(atoms.len() as u32)
    } else {
        Err(AllocError)
    }
}

/// The term at a place.
pub(crate) fn term_at(terms: &Terms, place: usize) -> TermId
    requires { place < length terms.now }
    ensures { result ≡ place }
{
    let count = terms.len() as usize;
    prove!(place < count);
    TermId::new(place as u32)
}

/// Whether no circuit computes the value of the operation.
pub(crate) fn is_atomic(op: &Op) -> bool
    ensures { result ≡ is_atomic op.now }
{
    matches!(op, Op::Symbol(..) | Op::App(..))
}

/// How many bits the values of a type have.
fn width(ty: &Ty) -> u8
    ensures { result ≡ bit_width ty.now }
{
    match ty {
        Ty::Bool => 1,
        Ty::Bv(width) => *width,
        _ => 0,
    }
}
