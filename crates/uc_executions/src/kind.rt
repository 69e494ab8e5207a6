//! The kinds of formulas that traces are asked.

ghost use Rattle.std.specs.Prelude.{◌≡◌, ◌&&◌, nat_eq, nat_lt};
ghost use Rattle.std.specs.Option.{option_copied};
ghost use Rattle.uc_meaning.specs.Lookup.{some_if, axiom_in, invariant_in, hyperinvariant_in, hyperaxiom_in};
ghost use Rattle.uc_executions.specs.Formulas.{formula_in, of_copies};

use uc_syntax::{Decl, Expr};

/// Axioms or invariants; or hyper formulas, of so many copies.
#[derive(Clone, Copy, Debug, PartialEq, Eq)]
pub enum FormulaKind {
    Axiom,
    Invariant,
    Hyperinvariant(u8),
    Hyperaxiom(u8),
}

/// The formula of a kind that a declaration states.
pub(crate) fn formula_in(kind: FormulaKind, decl: &Decl) -> Option<&Expr>
    ensures { option_copied result ≡ formula_in kind decl.now }
{
    match kind {
        FormulaKind::Axiom => axiom_in(decl),
        FormulaKind::Invariant => invariant_in(decl),
        FormulaKind::Hyperinvariant(arity) => hyperinvariant_in(arity, decl),
        FormulaKind::Hyperaxiom(arity) => hyperaxiom_in(arity, decl),
    }
}

fn axiom_in(decl: &Decl) -> Option<&Expr>
    ensures { option_copied result ≡ axiom_in decl.now }
{
    match decl {
        Decl::Axiom(_, _, formula) => Some(formula),
        _ => None,
    }
}

fn invariant_in(decl: &Decl) -> Option<&Expr>
    ensures { option_copied result ≡ invariant_in decl.now }
{
    match decl {
        Decl::Invariant(_, _, formula) => Some(formula),
        _ => None,
    }
}

fn hyperinvariant_in(arity: u8, decl: &Decl) -> Option<&Expr>
    ensures { option_copied result ≡ of_copies arity (hyperinvariant_in decl.now) }
{
    match decl {
        Decl::Hyperinvariant(_, own, _, formula) => of_copies(arity, *own, formula),
        _ => None,
    }
}

fn hyperaxiom_in(arity: u8, decl: &Decl) -> Option<&Expr>
    ensures { option_copied result ≡ of_copies arity (hyperaxiom_in decl.now) }
{
    match decl {
        Decl::Hyperaxiom(_, own, _, formula) => of_copies(arity, *own, formula),
        _ => None,
    }
}

/// A hyper formula, where it is of so many copies. A single copy has none.
fn of_copies(arity: u8, own: u128, formula: &Expr) -> Option<&Expr>
    ensures { option_copied result ≡ some_if (nat_lt 1 arity && nat_eq own arity) formula.now }
{
    if 1 < arity && own == u128::from(arity) {
        Some(formula)
    } else {
        None
    }
}
