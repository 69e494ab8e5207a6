//! The rows of the type table: what the operators make of the types of their operands.

ghost use Rattle.std.specs.Prelude.{◌≡◌, Some};
ghost use Rattle.uc_rules.specs.Rows.{compared, comparison, condition, joined, same_outcome, two_alike, two_bits, two_booleans, two_numbers, two_ordered, two_unsigned, two_widths, unary, with_operator};

use crate::outcome::Outcome;
use crate::rule::Rule;
use crate::same::same_type;
use uc_syntax::{Comparison, UnaryOperator};
use uc_values::Ty;

/// The operators of a chain by their row of the type table.
#[derive(Clone, Copy, Debug, PartialEq, Eq)]
pub enum Chain {
    /// `&&`, `||`, `<==>`, `==>`
    Boolean,
    /// `+`, `-`, `*`
    Number,
    /// `&`, `|`, `^`
    Bits,
    /// `++`
    Concat,
}

/// What an operator of a chain makes of two types.
pub fn joined(chain: Chain, a: &Ty, b: &Ty) -> Outcome
    ensures { result ≡ joined chain a.now b.now }
{
    match chain {
        Chain::Boolean => booleans(a, b),
        Chain::Number => numbers(a, b),
        Chain::Bits => bits(a, b),
        Chain::Concat => concatenated(a, b),
    }
}

fn booleans(a: &Ty, b: &Ty) -> Outcome
    ensures { result ≡ two_booleans a.now b.now }
{
    match (a, b) {
        (Ty::Bool, Ty::Bool) => Outcome::Has(Ty::Bool),
        _ => Outcome::Breaks(Rule::WrongType),
    }
}

fn numbers(a: &Ty, b: &Ty) -> Outcome
    ensures { result ≡ two_numbers a.now b.now }
{
    match (a, b) {
        (Ty::Int, Ty::Int) => Outcome::Has(Ty::Int),
        (Ty::Bv(w), Ty::Bv(v)) => {
            if *w == *v {
                Outcome::Has(Ty::Bv(*w))
            } else {
                Outcome::Breaks(Rule::WrongType)
            }
        }
        _ => Outcome::Breaks(Rule::WrongType),
    }
}

fn bits(a: &Ty, b: &Ty) -> Outcome
    ensures { result ≡ two_bits a.now b.now }
{
    match (a, b) {
        (Ty::Bv(w), Ty::Bv(v)) => {
            if *w == *v {
                Outcome::Has(Ty::Bv(*w))
            } else {
                Outcome::Breaks(Rule::WrongType)
            }
        }
        _ => Outcome::Breaks(Rule::WrongType),
    }
}

fn concatenated(a: &Ty, b: &Ty) -> Outcome
    ensures { result ≡ two_widths a.now b.now }
{
    match (a, b) {
        (Ty::Bv(w), Ty::Bv(v)) => {
            let sum = *w as u16 + *v as u16;
            if 64 < sum {
                Outcome::Breaks(Rule::BadWidth)
            } else {
                Outcome::Has(Ty::Bv(sum as u8))
            }
        }
        _ => Outcome::Breaks(Rule::WrongType),
    }
}

/// What a comparison makes of two types.
pub fn compared(how: Comparison, a: &Ty, b: &Ty) -> Outcome
    ensures { result ≡ compared how a.now b.now }
{
    match how {
        Comparison::Equal => alike(a, b),
        Comparison::Unequal => alike(a, b),
        Comparison::Less => ordered(a, b),
        Comparison::AtMost => ordered(a, b),
        Comparison::Greater => ordered(a, b),
        Comparison::AtLeast => ordered(a, b),
        Comparison::LessUnsigned => unsigned(a, b),
        Comparison::AtMostUnsigned => unsigned(a, b),
        Comparison::GreaterUnsigned => unsigned(a, b),
        Comparison::AtLeastUnsigned => unsigned(a, b),
    }
}

fn alike(a: &Ty, b: &Ty) -> Outcome
    ensures { result ≡ two_alike a.now b.now }
{
    if same_type(a, b) {
        Outcome::Has(Ty::Bool)
    } else {
        Outcome::Breaks(Rule::WrongType)
    }
}

fn ordered(a: &Ty, b: &Ty) -> Outcome
    ensures { result ≡ two_ordered a.now b.now }
{
    match (a, b) {
        (Ty::Int, Ty::Int) => Outcome::Has(Ty::Bool),
        _ => unsigned(a, b),
    }
}

fn unsigned(a: &Ty, b: &Ty) -> Outcome
    ensures { result ≡ two_unsigned a.now b.now }
{
    match (a, b) {
        (Ty::Bv(w), Ty::Bv(v)) => {
            if *w == *v {
                Outcome::Has(Ty::Bool)
            } else {
                Outcome::Breaks(Rule::WrongType)
            }
        }
        _ => Outcome::Breaks(Rule::WrongType),
    }
}

/// A condition is a boolean.
pub fn condition(c: &Option<Ty>) -> Outcome
    ensures { result ≡ condition c.now }
{
    match c {
        Some(Ty::Bool) => Outcome::Has(Ty::Bool),
        Some(_) => Outcome::Breaks(Rule::WrongType),
        None => Outcome::Unjudged,
    }
}

/// What an operator of one operand makes of its type.
pub fn with_operator(operator: UnaryOperator, t: &Ty) -> Outcome
    ensures { result ≡ with_operator operator t.now }
{
    match operator {
        UnaryOperator::Not => match t {
            Ty::Bool => Outcome::Has(Ty::Bool),
            _ => Outcome::Breaks(Rule::WrongType),
        },
        UnaryOperator::Negate => match t {
            Ty::Int => Outcome::Has(Ty::Int),
            Ty::Bv(w) => Outcome::Has(Ty::Bv(*w)),
            _ => Outcome::Breaks(Rule::WrongType),
        },
        UnaryOperator::Complement => match t {
            Ty::Bv(w) => Outcome::Has(Ty::Bv(*w)),
            _ => Outcome::Breaks(Rule::WrongType),
        },
    }
}

/// What a comparison makes of the types of its operands.
pub fn comparison(how: Comparison, a: &Option<Ty>, b: &Option<Ty>) -> Outcome
    ensures { result ≡ comparison how a.now b.now }
{
    match a {
        Some(a) => match b {
            Some(b) => compared(how, a, b),
            None => Outcome::Unjudged,
        },
        None => Outcome::Unjudged,
    }
}

/// Two of one type have that type.
pub fn same_outcome(a: Option<Ty>, b: &Option<Ty>) -> Outcome
    ensures { result ≡ same_outcome a b.now }
{
    match a {
        Some(a) => match b {
            Some(b) => either(a, b),
            None => Outcome::Unjudged,
        },
        None => Outcome::Unjudged,
    }
}

fn either(a: Ty, b: &Ty) -> Outcome
    ensures { result ≡ same_outcome (Some a) (Some b.now) }
{
    if same_type(&a, b) {
        Outcome::Has(a)
    } else {
        Outcome::Breaks(Rule::WrongType)
    }
}

/// What an operator of one operand makes of its type, where it has one.
pub fn unary(operator: UnaryOperator, t: &Option<Ty>) -> Outcome
    ensures { result ≡ unary operator t.now }
{
    match t {
        Some(t) => with_operator(operator, t),
        None => Outcome::Unjudged,
    }
}
