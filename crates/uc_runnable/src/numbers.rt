//! Numbers that are expressions.

ghost use Rattle.std.specs.Prelude.{◌≡◌, drop};
ghost use Rattle.std.specs.Option.{option_or};
ghost use Rattle.uc_meaning.specs.Lookup.{first_some};
ghost use Rattle.uc_runnable.specs.Outside.{expressions_among, is_extension, number_in, number_in_part, number_in_target};
ghost use Rattle.uc_runnable.specs.Parts.{number_in_branch, primary_in, selection_in};

use uc_syntax::{BitFunction, Branch, Expr, Place, Primary, Selection, Target, TargetPart};

/// The place of the first number in an expression that is itself an expression.
#[cycle(number_in)]
pub(crate) fn number_in(expression: &Expr) -> Option<Place>
    ensures { result ≡ number_in expression.now }
{
    match expression {
        Expr::If(_, branches, otherwise) => {
            number_in_branches(branches.as_slice()).or(number_in(otherwise.get()))
        }
        Expr::Iff(_, operands, _) => number_in_all(operands.as_slice()),
        Expr::Implies(_, operands, _) => number_in_all(operands.as_slice()),
        Expr::Or(_, operands, _) => number_in_all(operands.as_slice()),
        Expr::And(_, operands, _) => number_in_all(operands.as_slice()),
        Expr::Compare(_, _, _, left, right) => number_in(left.get()).or(number_in(right.get())),
        Expr::BitOr(_, operands, _) => number_in_all(operands.as_slice()),
        Expr::BitXor(_, operands, _) => number_in_all(operands.as_slice()),
        Expr::BitAnd(_, operands, _) => number_in_all(operands.as_slice()),
        Expr::Concat(_, operands, _) => number_in_all(operands.as_slice()),
        Expr::Sum(_, operands, _) => number_in_all(operands.as_slice()),
        Expr::Product(_, operands, _) => number_in_all(operands.as_slice()),
        Expr::Unary(_, _, operand) => number_in(operand.get()),
        Expr::Selected(place, primary, selections) => {
            number_in_primary(*place, primary).or(number_in_selections(selections.as_slice()))
        }
    }
}

/// The place of the first number in expressions.
#[cycle(number_in)]
#[tactic(auto, unfolding(uc_meaning::specs::Lookup::first_some))]
pub(crate) fn number_in_all(expressions: &[Expr]) -> Option<Place>
    ensures { result ≡ first_some number_in expressions.now }
{
    for expression in expressions {
        let found = number_in(expression);
        if found.is_some() {
            return found;
        }
    }
    None
}

#[cycle(number_in)]
#[tactic(auto, unfolding(uc_meaning::specs::Lookup::first_some))]
fn number_in_branches(branches: &[Branch<Expr>]) -> Option<Place>
    ensures { result ≡ first_some number_in_branch branches.now }
{
    for branch in branches {
        let found = number_in(&branch.condition).or(number_in(&branch.value));
        if found.is_some() {
            return found;
        }
    }
    None
}

/// The same of a primary that stands at a place.
#[cycle(number_in)]
fn number_in_primary(place: Place, primary: &Primary<Expr>) -> Option<Place>
    ensures { result ≡ primary_in place primary.now }
{
    match primary {
        Primary::Truth(_) => None,
        Primary::Number(_) => Some(place),
        Primary::BitsLiteral(_, _) => None,
        Primary::Name(_, _) => None,
        Primary::Apply(_, arguments) => number_in_all(arguments.as_slice()),
        Primary::OnBits(function, arguments) => {
            number_in_arguments(*function, arguments.as_slice())
        }
        Primary::Old(_) => None,
        Primary::Grouped(inner) => number_in(inner.get()),
    }
}

/// The same of the arguments of a function on bits.
#[cycle(number_in)]
fn number_in_arguments(function: BitFunction, arguments: &[Expr]) -> Option<Place>
    ensures { result ≡ first_some number_in (expressions_among function arguments.now) }
{
    if is_extension(function) {
        number_behind_first(arguments)
    } else {
        number_in_all(arguments)
    }
}

#[cycle(number_in)]
#[tactic(auto, unfolding(uc_meaning::specs::Lookup::first_some))]
fn number_behind_first(expressions: &[Expr]) -> Option<Place>
    ensures { result ≡ first_some number_in (drop 1 expressions.now) }
{
    match expressions {
        [] => None,
        [_, others @ ..] => number_in_all(others),
    }
}

/// The first argument of an extension is a number that is no expression.
fn is_extension(function: BitFunction) -> bool
    ensures { result ≡ is_extension function }
{
    matches!(function, BitFunction::ZeroExtend | BitFunction::SignExtend)
}

#[cycle(number_in)]
#[tactic(auto, unfolding(uc_meaning::specs::Lookup::first_some))]
fn number_in_selections(selections: &[Selection<Expr>]) -> Option<Place>
    ensures { result ≡ first_some selection_in selections.now }
{
    for selection in selections {
        let found = number_in_selection(selection);
        if found.is_some() {
            return found;
        }
    }
    None
}

#[cycle(number_in)]
fn number_in_selection(selection: &Selection<Expr>) -> Option<Place>
    ensures { result ≡ selection_in selection.now }
{
    match selection {
        Selection::Field(_, _) => None,
        Selection::Copy(_, _) => None,
        Selection::Element(_, index) => number_in(index),
        Selection::Update(_, index, value) => number_in(index).or(number_in(value)),
        Selection::Extract(_, _, _) => None,
    }
}

/// The place of the first number in the indices of targets.
#[tactic(auto, unfolding(uc_meaning::specs::Lookup::first_some))]
pub(crate) fn number_in_targets(targets: &[Target]) -> Option<Place>
    ensures { result ≡ first_some number_in_target targets.now }
{
    for target in targets {
        let found = number_in_parts(target.parts.as_slice());
        if found.is_some() {
            return found;
        }
    }
    None
}

#[tactic(auto, unfolding(uc_meaning::specs::Lookup::first_some))]
fn number_in_parts(parts: &[TargetPart]) -> Option<Place>
    ensures { result ≡ first_some number_in_part parts.now }
{
    for part in parts {
        let found = number_in_part(part);
        if found.is_some() {
            return found;
        }
    }
    None
}

fn number_in_part(part: &TargetPart) -> Option<Place>
    ensures { result ≡ number_in_part part.now }
{
    match part {
        TargetPart::Field(_, _) => None,
        TargetPart::Element(_, index) => number_in(index),
    }
}
