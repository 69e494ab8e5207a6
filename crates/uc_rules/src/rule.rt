//! The rules by name.

ghost use Rattle.std.specs.Prelude.{◌≡◌};
ghost use Rattle.uc_rules.specs.Faults.{number_of};

/// A static rule, by what breaks it.
#[derive(Clone, Copy, Debug, PartialEq, Eq)]
pub enum Rule {
    /// A name that is not there, or that cannot be seen; a text without `main`.
    UnknownName,
    /// A name that is declared again; a second `init`, `next` or `control`.
    DuplicateName,
    /// Values of the wrong types, or the wrong number of them.
    WrongType,
    /// A product of whole numbers of which more than one is no literal.
    Nonlinear,
    /// A whole number of 2 to the 127 or more.
    WideLiteral,
    /// An input of an instance that is not bound.
    Unbound,
    /// A target, or a name of `havoc`, of `modifies` or of a bound output, that cannot be written.
    NotAssignable,
    /// A prime outside `next`, or on what has no new value; a target without one in `next`; `old` outside `ensures`; a local, or `next (i)`, in
    /// the wrong block.
    BadPrime,
    /// A number of a copy that cannot stand there, or none where one must.
    BadCopy,
    /// A procedure that writes what its `modifies` does not list.
    NotModifies,
    /// A width, a literal of bits or an extraction out of range.
    BadWidth,
    /// An array or a function of types that cannot be its parts.
    ArrayShape,
    /// An axiom that reads state.
    AxiomState,
    /// A cycle of aliases, of instances, of uses or of calls.
    Cycle,
    /// A part that is written twice in one step, or a variable twice by one statement.
    TwiceAssigned,
    /// A cell that depends on itself in a step.
    CyclicStep,
    /// An instance that is stepped twice.
    SteppedTwice,
    /// A limit that is passed: on labels, turns, chains, instances, cells, or what main expands to.
    TooLarge,
}

impl Rule {
    /// The number under which a broken rule is reported.
    pub fn number(self) -> u32
        ensures { result ≡ number_of self }
    {
        match self {
            Rule::UnknownName => 10,
            Rule::DuplicateName => 11,
            Rule::WrongType => 12,
            Rule::Nonlinear => 13,
            Rule::WideLiteral => 14,
            Rule::Unbound => 15,
            Rule::NotAssignable => 16,
            Rule::BadPrime => 17,
            Rule::BadCopy => 18,
            Rule::NotModifies => 19,
            Rule::BadWidth => 20,
            Rule::ArrayShape => 21,
            Rule::AxiomState => 22,
            Rule::Cycle => 23,
            Rule::TwiceAssigned => 24,
            Rule::CyclicStep => 25,
            Rule::SteppedTwice => 26,
            Rule::TooLarge => 27,
        }
    }
}
