//! What is asked of an expression besides its type: where it begins, and whether it is a literal, a plain number or a name alone.

ghost use Rattle.std.specs.Prelude.{◌≡◌, ◌&&◌};
ghost use Rattle.std.specs.Option.{is_some, option_copied};
ghost use Rattle.uc_rules.specs.Expressions.{Context, is_counter, is_integer, is_integer_counter, is_negation, judged};
ghost use Rattle.uc_expression_rules.specs.Parts.{is_plain_primary, name_of_primary, number_of_primary};

use uc_read_names::Scope;
use uc_rules::{Known, Role};
use uc_syntax::{Expr, Place, Primary, UnaryOperator};
use uc_values::Ty;

/// Where an expression begins.
#[tactic(auto, using(crate::proofs::Forms::judged_iff, crate::proofs::Forms::judged_implies, crate::proofs::Forms::judged_or, crate::proofs::Forms::judged_and, crate::proofs::Forms::judged_bit_or, crate::proofs::Forms::judged_bit_xor, crate::proofs::Forms::judged_bit_and, crate::proofs::Forms::judged_concat, crate::proofs::Forms::judged_sum, crate::proofs::Forms::judged_product, crate::proofs::Forms::judged_if, crate::proofs::Forms::judged_compare, crate::proofs::Forms::judged_unary, crate::proofs::Selected::judged_selected))]
pub fn place_of(e: &Expr) -> Place
    ensures { (c : Context) → result ≡ (judged e.now c).place }
{
    match e {
        Expr::If(place, _, _) => *place,
        Expr::Iff(place, _, _) => *place,
        Expr::Implies(place, _, _) => *place,
        Expr::Or(place, _, _) => *place,
        Expr::And(place, _, _) => *place,
        Expr::Compare(place, _, _, _, _) => *place,
        Expr::BitOr(place, _, _) => *place,
        Expr::BitXor(place, _, _) => *place,
        Expr::BitAnd(place, _, _) => *place,
        Expr::Concat(place, _, _) => *place,
        Expr::Sum(place, _, _) => *place,
        Expr::Product(place, _, _) => *place,
        Expr::Unary(place, _, _) => *place,
        Expr::Selected(place, _, _) => *place,
    }
}

/// The number of an expression that is a plain number.
pub fn number_of(e: &Expr) -> Option<u128>
    ensures { (c : Context) → result ≡ (judged e.now c).number }
{
    match e {
        Expr::Selected(_, primary, selections) => {
            if selections.is_empty() {
                number_of_primary(primary)
            } else {
                None
            }
        }
        _ => None,
    }
}

fn number_of_primary(primary: &Primary<Expr>) -> Option<u128>
    ensures { result ≡ number_of_primary primary.now }
{
    match primary {
        Primary::Number(number) => Some(*number),
        _ => None,
    }
}

/// The name of an expression that is an unprimed name alone.
pub fn name_of(e: &Expr) -> Option<u32>
    ensures { (c : Context) → result ≡ (judged e.now c).name }
{
    match e {
        Expr::Selected(_, primary, selections) => {
            if selections.is_empty() {
                name_of_primary(primary)
            } else {
                None
            }
        }
        _ => None,
    }
}

fn name_of_primary(primary: &Primary<Expr>) -> Option<u32>
    ensures { result ≡ name_of_primary primary.now }
{
    match primary {
        Primary::Name(name, false) => Some(*name),
        _ => None,
    }
}

/// Whether an expression is a literal, a negated literal or an integer loop variable.
pub fn is_plain(scope: &Scope<'_, '_>, e: &Expr) -> bool
    ensures { result ≡ (judged e.now scope.now).plain }
{
    match e {
        Expr::Selected(_, primary, selections) => {
            if selections.is_empty() {
                is_plain_primary(scope, primary)
            } else {
                false
            }
        }
        Expr::Unary(_, operator, operand) => is_negated_number(*operator, operand.get()),
        _ => false,
    }
}

fn is_negated_number(operator: UnaryOperator, operand: &Expr) -> bool
    ensures { (c : Context) → result ≡ (is_negation operator && is_some (judged operand.now c).number) }
{
    is_negation(operator) && number_of(operand).is_some()
}

fn is_negation(operator: UnaryOperator) -> bool
    ensures { result ≡ is_negation operator }
{
    match operator {
        UnaryOperator::Negate => true,
        _ => false,
    }
}

fn is_plain_primary(scope: &Scope<'_, '_>, primary: &Primary<Expr>) -> bool
    ensures { result ≡ is_plain_primary scope.now primary.now }
{
    match primary {
        Primary::Number(_) => true,
        Primary::Name(name, false) => is_integer_counter(scope.known(*name)),
        _ => false,
    }
}

fn is_integer_counter(known: Option<&Known>) -> bool
    ensures { result ≡ is_integer_counter (option_copied known.entry) }
{
    match known {
        None => false,
        Some(known) => is_counter(known.role) && is_integer(&known.ty),
    }
}

fn is_counter(role: Role) -> bool
    ensures { result ≡ is_counter role }
{
    match role {
        Role::Counter => true,
        _ => false,
    }
}

/// Whether this is the type of integers.
pub(crate) fn is_integer(ty: &Option<Ty>) -> bool
    ensures { result ≡ is_integer ty.now }
{
    match ty {
        Some(Ty::Int) => true,
        _ => false,
    }
}
