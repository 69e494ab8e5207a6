//! Clauses.

ghost use Rattle.std.specs.Prelude.{◌≡◌, ◌↔◌, [], ◌∷◌, ◌++◌, length, IsTrue, IfOk, OnOk, OnErr};
ghost use Rattle.std.proofs.Common.{rules};
ghost use Rattle.std.specs.Cmp.Rules.{comparing};

use crate::Lit;
use smallvec::SmallVec;
use std::alloc::{AllocError, Global};
use std::marker::Model;

/// A list of literals, of which one has to be true. Up to four of them take no memory.
#[derive(Debug, Drop)]
pub struct Clause {
    literals: SmallVec<Lit, 4>,
}

impl Model for Clause {
    ghost use Rattle.std.specs.Prelude.{List};
    ghost use Rattle.uc_circuit.specs.declared.literal.Lit.{Lit};

    ghost Value = { List Lit };

    ghost view = { λ c. c.literals.items };
}

impl Clause {
    /// The empty clause.
    pub fn new(alloc: Global) -> Clause
        ensures { result ≡ [] }
    {
        Clause {
            literals: SmallVec::new(alloc),
        }
    }

    pub fn from_slice(alloc: Global, literals: &[Lit]) -> Result<Clause, AllocError>
        ensures { IfOk result (λ c. c ≡ literals.now) }
    {
        let literals = SmallVec::from_slice(alloc, literals)?;
        Ok(Clause { literals })
    }

    pub fn push(&mut self, literal: Lit) -> Result<(), AllocError>
        ensures ok { OnOk result (self.new ≡ self.old ++ literal ∷ []) }
        ensures err { OnErr result (self.new ≡ self.old) }
    {
        self.literals.push(literal)?;
        Ok(())
    }

    pub fn as_slice(&self) -> &[Lit]
        ensures { result.now ≡ self.now }
    {
        self.literals.as_slice()
    }

    pub fn len(&self) -> usize
        ensures { result ≡ length self.now }
    {
        self.literals.len()
    }

    pub fn is_empty(&self) -> bool
        ensures { IsTrue result ↔ (self.now ≡ []) }
    {
        self.literals.is_empty()
    }
}

impl PartialEq for Clause {
    ghost use Rattle.std.specs.Cmp.Lexicographic.{pointwise};
    ghost use Rattle.uc_circuit.specs.Literals.{same_literal};

    ghost eq = { pointwise same_literal };

    ghost laws = { Prim.search (comparing, rules) };

    fn eq(&self, other: &Clause) -> bool
        ensures value { result ≡ pointwise same_literal self.now other.now }
        ensures same { IsTrue result ↔ (self.now ≡ other.now) }
    {
        self.literals == other.literals
    }
}

impl Eq for Clause {
    ghost laws = { Prim.search (comparing, rules) };
}
