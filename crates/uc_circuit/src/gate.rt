//! Gates.

ghost use Rattle.std.specs.Prelude.{◌≡◌, ◌↔◌, IsTrue, length};
ghost use Rattle.uc_circuit.specs.Gates.{OperandsBelow, clauses_of_gate, gate_value};
ghost use Rattle.uc_circuit.specs.Circuits.{value_at};

use crate::Lit;

/// A function of two or three literals, its operands.
#[derive(Clone, Copy, Debug, PartialEq, Eq, Hash)]
pub enum Gate {
    And(Lit, Lit),
    Xor(Lit, Lit),
    /// The condition, the value where it is true, and the value where it is false.
    Mux(Lit, Lit, Lit),
}

impl Gate {
    /// Whether the variable of each operand is below the bound.
    pub fn is_below(&self, bound: u32) -> bool
        ensures { IsTrue result ↔ OperandsBelow bound self.now }
    {
        let below = |literal: Lit| literal.var < bound;
        match *self {
            Gate::And(left, right) | Gate::Xor(left, right) => below(left) && below(right),
            Gate::Mux(condition, then, other) => below(condition) && below(then) && below(other),
        }
    }

    /// How many clauses the gate has.
    pub fn clauses_count(&self) -> usize
        ensures { result ≡ length (clauses_of_gate 0 self.now) }
    {
        match self {
            Gate::And(..) => 3,
            Gate::Xor(..) | Gate::Mux(..) => 4,
        }
    }

    /// The function's value, from the values of the variables before the gate.
    pub fn value(&self, values: &[bool]) -> bool
        requires { OperandsBelow (length values.now) self.now }
        ensures { result ≡ gate_value (value_at values.now) self.now }
    {
        match *self {
            Gate::And(left, right) => left.value(values) && right.value(values),
            Gate::Xor(left, right) => left.value(values) != right.value(values),
            Gate::Mux(condition, then, other) => {
                if condition.value(values) {
                    then.value(values)
                } else {
                    other.value(values)
                }
            }
        }
    }
}
