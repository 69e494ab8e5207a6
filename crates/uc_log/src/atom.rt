//! Atoms.

ghost use Rattle.std.specs.Prelude.{◌≡◌, ◌↔◌, ◌<◌, IsTrue, All, length};
ghost use Rattle.uc_values.specs.declared.ty.Ty.TheVariants.{Int};
ghost use Rattle.uc_ops.specs.Typing.{type_at};
ghost use Rattle.uc_log.specs.declared.atom.Atom.TheVariants.{Eq as Equal};
ghost use Rattle.uc_log.specs.Atoms.{IsMeant, IsBitOf, is_opaque};

use crate::same_type::is_same_type;
use uc_linear::Form;
use uc_terms::{TermId, Terms};
use uc_values::Ty;

/// What an input stands for.
pub enum Atom {
    /// Nothing: it may have any value.
    Free,
    /// A bit of a term, from the lowest; bit 0 of a boolean term.
    Bit(TermId, u8),
    /// The form is at most 0, its variables being the numbers of integer terms.
    Le(Form),
    /// Two terms have the same value.
    Eq(TermId, TermId),
}

impl Atom {
    /// Whether its terms are there and have the types that it asks for.
    pub fn is_meant(&self, terms: &Terms) -> bool
        ensures { IsTrue result ↔ IsMeant terms.now self.now }
    {
        match self {
            Atom::Free => false,
            Atom::Bit(term, bit) => {
                term.number() < terms.len() && is_bit_of(terms.ty(*term), *bit)
            }
            Atom::Le(form) => are_integers(terms, form.pairs()),
            Atom::Eq(left, right) => is_equality(terms, *left, *right),
        }
    }

    pub fn is_same(&self, other: &Atom) -> bool
        ensures { IsTrue result ↔ (self.now ≡ other.now) }
    {
        match (self, other) {
            (Atom::Free, Atom::Free) => true,
            (Atom::Bit(term, bit), Atom::Bit(other_term, other_bit)) => {
                term == other_term && bit == other_bit
            }
            (Atom::Le(form), Atom::Le(other_form)) => is_same_form(form, other_form),
            (Atom::Eq(left, right), Atom::Eq(other_left, other_right)) => {
                left == other_left && right == other_right
            }
            _ => false,
        }
    }
}

fn is_same_form(form: &Form, other: &Form) -> bool
    ensures { IsTrue result ↔ (form.now ≡ other.now) }
{
    form.constant() == other.constant() && are_same_pairs(form.pairs(), other.pairs())
}

fn are_same_pairs(pairs: &[(u32, i128)], others: &[(u32, i128)]) -> bool
    ensures { IsTrue result ↔ (pairs.now ≡ others.now) }
{
    pairs == others
}

fn is_bit_of(ty: &Ty, bit: u8) -> bool
    ensures { IsTrue result ↔ IsBitOf ty.now bit }
{
    match ty {
        Ty::Bool => bit == 0,
        Ty::Bv(width) => bit < *width,
        _ => false,
    }
}

fn is_opaque(ty: &Ty) -> bool
    ensures { result ≡ is_opaque ty.now }
{
    matches!(ty, Ty::Un(_) | Ty::Arr(..))
}

/// Whether the terms are of one uninterpreted type or of one type of arrays.
fn is_equality(terms: &Terms, left: TermId, right: TermId) -> bool
    ensures { IsTrue result ↔ IsMeant terms.now (Equal left right) }
{
    if left.number() >= terms.len() || right.number() >= terms.len() {
        return false;
    }
    let ty = terms.ty(left);
    is_same_type(terms.ty(right), ty) && is_opaque(ty)
}

/// Whether the variables are the numbers of integer terms.
fn are_integers(terms: &Terms, pairs: &[(u32, i128)]) -> bool
    ensures { IsTrue result ↔ All (λ p. (p.0 < length terms.now) × (type_at terms.now p.0 ≡ Int)) pairs.now }
{
    pairs.iter().all(|(number, _)| is_integer(terms, *number))
}

/// Whether the number is that of an integer term.
fn is_integer(terms: &Terms, number: u32) -> bool
    ensures { IsTrue result ↔ (number < length terms.now) × (type_at terms.now number ≡ Int) }
{
    number < terms.len() && matches!(terms.ty(TermId::new(number)), Ty::Int)
}

impl Drop for Atom {
    fn drop(self) {
        match self {
            Atom::Free | Atom::Bit(_, _) | Atom::Eq(_, _) => {}
            Atom::Le(form) => drop(form),
        }
    }
}
