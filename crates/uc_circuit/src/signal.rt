//! Signals.

ghost use Rattle.std.specs.Prelude.{◌≡◌, if◌then◌else◌};
ghost use Rattle.uc_circuit.specs.Signals.{turned};

use crate::Lit;

/// A constant, or a literal of a circuit.
#[derive(Clone, Copy, Debug, PartialEq, Eq)]
pub enum Signal {
    Constant(bool),
    Of(Lit),
}

impl Signal {
    /// The signal that is true where this one is false.
    pub fn turn(self) -> Signal
        ensures { result ≡ turned self }
    {
        match self {
            Signal::Constant(truth) => Signal::Constant(!truth),
            Signal::Of(literal) => Signal::Of(literal.negate()),
        }
    }

    /// The signal, turned where it is to be.
    pub fn turn_if(self, turn: bool) -> Signal
        ensures { result ≡ (if turn then turned self else self) }
    {
        if turn { self.turn() } else { self }
    }
}
