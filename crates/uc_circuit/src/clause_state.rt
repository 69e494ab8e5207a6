//! What a clause is while some variables have no value yet.

ghost use Rattle.std.specs.Prelude.{◌<◌, length, All};
ghost use Rattle.uc_circuit.specs.ClauseStates.{ClauseIs};

use crate::Lit;

/// What a clause is under values that some variables have.
#[derive(Clone, Copy, Debug, PartialEq, Eq)]
pub enum ClauseState {
    /// Each literal is false.
    Falsified,
    /// This literal has no value, and each other one is false.
    Unit(Lit),
    /// Neither.
    Settled,
}

/// The state of a clause under values that some variables have.
pub fn state_of(clause: &[Lit], values: &[Option<bool>]) -> ClauseState
    requires { All (λ l. l.var < length values.now) clause.now }
    ensures { ClauseIs values.now clause.now result }
{
    let mut unvalued: Option<Lit> = None;
    for literal in clause {
        match values[literal.var as usize] {
            Some(value) => {
                if value != literal.neg {
                    return ClauseState::Settled;
                }
            }
            None => match unvalued {
                None => unvalued = Some(*literal),
                Some(other) => {
                    if other != *literal {
                        return ClauseState::Settled;
                    }
                }
            },
        }
    }
    match unvalued {
        None => ClauseState::Falsified,
        Some(literal) => ClauseState::Unit(literal),
    }
}
