//! Literals.

ghost use Rattle.std.specs.Prelude.{◌≡◌, ◌<◌, length};
ghost use Rattle.uc_circuit.specs.Literals.{literal_value, negate, positive};
ghost use Rattle.uc_circuit.specs.Circuits.{value_at};

/// A variable, or its negation.
#[derive(Clone, Copy, Debug, Default, PartialEq, Eq, Hash)]
pub struct Lit {
    pub var: u32,
    /// Whether the variable is negated.
    pub neg: bool,
}

impl Lit {
    pub fn positive(var: u32) -> Lit
        ensures { result ≡ positive var }
    {
        Lit { var, neg: false }
    }

    /// The literal of the same variable that is true where this one is false.
    pub fn negate(self) -> Lit
        ensures { result ≡ negate self }
    {
        Lit {
            var: self.var,
            neg: !self.neg,
        }
    }

    /// The literal's value, from one value per variable.
    pub fn value(self, values: &[bool]) -> bool
        requires { self.var < length values.now }
        ensures { result ≡ literal_value (value_at values.now) self }
    {
        values[self.var as usize] != self.neg
    }
}
