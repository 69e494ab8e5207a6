//! What a clause does when a literal that it watches became false.

ghost use Rattle.std.specs.Prelude.{◌≡◌, ◌↔◌, ◌<◌, length, All, Contains, IsTrue};
ghost use Rattle.uc_circuit.specs.Values.{IsFalse};
ghost use Rattle.uc_rings.specs.Pairs.{IsTrueIn, FateIs, Replaces, partner};

use uc_circuit::Lit;

/// What a clause does when a literal that it watches became false.
#[derive(Clone, Copy)]
pub enum Fate {
    /// The other watched literal is true.
    Stays,
    /// This literal is not false, and is watched from now on.
    Moves(Lit),
    /// The other watched literal is forced.
    Implies(Lit),
    /// Each literal is false.
    Conflict,
}

/// The clause's other slot.
pub fn partner(slot: u32) -> usize
    ensures { result ≡ partner slot }
{
    let slot = slot as usize;
    slot + 1 - 2 * (slot % 2)
}

/// What the clause does, whose other watched literal is `other`.
#[tactic(auto, using(crate::proofs::Fates::all_false, crate::proofs::Fates::forced))]
pub fn fate_of(clause: &[Lit], other: Lit, values: &[Option<bool>]) -> Fate
    requires within { All (λ l. l.var < length values.now) clause.now }
    requires other { Contains clause.now other }
    ensures { FateIs values.now clause.now other result }
{
    if is_true(other, values) {
        return Fate::Stays;
    }
    if let Some(literal) = replacement(clause, other, values) {
        return Fate::Moves(literal);
    }
    if is_false(other, values) {
        return Fate::Conflict;
    }
    Fate::Implies(other)
}

/// A literal that is not false, other than the one.
fn replacement(clause: &[Lit], other: Lit, values: &[Option<bool>]) -> Option<Lit>
    requires { All (λ l. l.var < length values.now) clause.now }
    ensures { Replaces values.now clause.now other result }
{
    for literal in clause {
        if *literal != other && !is_false(*literal, values) {
            return Some(*literal);
        }
    }
    None
}

pub fn is_true(literal: Lit, values: &[Option<bool>]) -> bool
    ensures { IsTrue result ↔ IsTrueIn values.now literal }
{
    match values.get(literal.var as usize) {
        Some(Some(value)) => *value != literal.neg,
        _ => false,
    }
}

fn is_false(literal: Lit, values: &[Option<bool>]) -> bool
    ensures { IsTrue result ↔ IsFalse values.now literal }
{
    match values.get(literal.var as usize) {
        Some(Some(value)) => *value == literal.neg,
        _ => false,
    }
}
