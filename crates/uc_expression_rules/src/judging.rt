//! The walk over expressions.

ghost use Rattle.std.specs.Prelude.{◌≡◌, map, reverse, IfOk, OnOk};
ghost use Rattle.std.specs.Prelude.{List};
ghost use Rattle.uc_rules.specs.Expressions.{condition_faults, judged};
ghost use Rattle.uc_rules.specs.Faults.{first_of};
ghost use Rattle.uc_read_names.specs.Reading.{standing_meant};
ghost use Rattle.uc_expression_rules.specs.Judging.{Judges, JudgesAll, JudgesBranches, JudgesChain, JudgesFromRight, JudgesOnBits, JudgesPrimary, JudgesProduct, JudgesSelection, JudgesSelections, JudgesTold, behind};

use crate::about::{is_plain, number_of, place_of};
use crate::branches::{JudgedBranch, conditional};
use crate::on_bits::{bits_outcome, is_number_alone};
use crate::operators::{
    chained, compared, product, reversed_places, reversed_types, sign_places, signed,
};
use crate::selections::{
    after_copy, after_element, after_extract, after_field, after_update, note_standing,
};
use std::alloc::{AllocError, Global};
use uc_items::Items;
use uc_read_names::{Scope, Standing};
use uc_rules::{Chain, Fault, Outcome, Rule, bits_literal, condition, number_literal, settle};
use uc_syntax::{BitFunction, Branch, Expr, Place, Primary, Selection};
use uc_values::Ty;

/// The type of an expression, where nothing in it is broken. Its faults are noted.
#[cycle(judge)]
#[tactic(auto, using(crate::proofs::Forms::judged_iff, crate::proofs::Forms::judged_or, crate::proofs::Forms::judged_and, crate::proofs::Forms::judged_bit_or, crate::proofs::Forms::judged_bit_xor, crate::proofs::Forms::judged_bit_and, crate::proofs::Forms::judged_concat, crate::proofs::Forms::judged_sum, crate::proofs::Forms::judged_product, crate::proofs::Forms::judged_implies))]
pub fn judge(
    alloc: Global,
    scope: &Scope<'_, '_>,
    e: &Expr,
    first: &mut Option<Fault>,
) -> Result<Option<Ty>, AllocError>
    ensures { IfOk result (λ t. Judges scope.now e.now first.old first.new t) }
{
    match e {
        Expr::If(_, branches, otherwise) => {
            let parts = judge_branches(alloc, scope, branches.as_slice(), first)?;
            let otherwise = judge(alloc, scope, otherwise.get(), first)?;
            Ok(conditional(parts, otherwise, first))
        }
        Expr::Iff(_, operands, marks) => {
            judge_chain_of(alloc, scope, Chain::Boolean, operands, marks, first)
        }
        Expr::Implies(_, operands, marks) => {
            judge_from_right(alloc, scope, operands, marks, first)
        }
        Expr::Or(_, operands, marks) => {
            judge_chain_of(alloc, scope, Chain::Boolean, operands, marks, first)
        }
        Expr::And(_, operands, marks) => {
            judge_chain_of(alloc, scope, Chain::Boolean, operands, marks, first)
        }
        Expr::Compare(_, how, mark, left, right) => {
            let left = judge(alloc, scope, left.get(), first)?;
            let right = judge(alloc, scope, right.get(), first)?;
            Ok(compared(*mark, *how, left, right, first))
        }
        Expr::BitOr(_, operands, marks) => {
            judge_chain_of(alloc, scope, Chain::Bits, operands, marks, first)
        }
        Expr::BitXor(_, operands, marks) => {
            judge_chain_of(alloc, scope, Chain::Bits, operands, marks, first)
        }
        Expr::BitAnd(_, operands, marks) => {
            judge_chain_of(alloc, scope, Chain::Bits, operands, marks, first)
        }
        Expr::Concat(_, operands, marks) => {
            judge_chain_of(alloc, scope, Chain::Concat, operands, marks, first)
        }
        Expr::Sum(_, operands, signs) => {
            let marks = sign_places(alloc, signs.as_slice())?;
            judge_chain_of(alloc, scope, Chain::Number, operands, &marks, first)
        }
        Expr::Product(_, operands, marks) => judge_product(alloc, scope, operands, marks, first),
        Expr::Unary(place, operator, operand) => {
            let operand = judge(alloc, scope, operand.get(), first)?;
            Ok(signed(*place, *operator, operand, first))
        }
        Expr::Selected(place, primary, selections) => {
            let start = judge_primary(alloc, scope, *place, primary, first)?;
            judge_selected(alloc, scope, *place, start, selections, first)
        }
    }
}

/// The types of several expressions.
#[cycle(judge)]
pub fn judge_all(
    alloc: Global,
    scope: &Scope<'_, '_>,
    expressions: &[Expr],
    first: &mut Option<Fault>,
) -> Result<Items<Option<Ty>>, AllocError>
    ensures { IfOk result (λ ts. JudgesAll scope.now expressions.now first.old first.new ts) }
{
    let mut types = Items::new(alloc);
    for expression in expressions {
        let ty = judge(alloc, scope, expression, first)?;
        types.push(ty)?;
    }
    Ok(types)
}

/// The type of a chain of operators from the left.
#[cycle(judge)]
fn judge_chain_of(
    alloc: Global,
    scope: &Scope<'_, '_>,
    chain: Chain,
    operands: &Items<Expr>,
    marks: &Items<Place>,
    first: &mut Option<Fault>,
) -> Result<Option<Ty>, AllocError>
    ensures { IfOk result (λ t. JudgesChain scope.now chain operands.now marks.now first.old first.new t) }
{
    let types = judge_all(alloc, scope, operands.as_slice(), first)?;
    Ok(chained(chain, marks.as_slice(), types, first))
}

/// The type of a chain of implications, which are grouped from the right.
#[cycle(judge)]
fn judge_from_right(
    alloc: Global,
    scope: &Scope<'_, '_>,
    operands: &Items<Expr>,
    marks: &Items<Place>,
    first: &mut Option<Fault>,
) -> Result<Option<Ty>, AllocError>
    ensures { IfOk result (λ t. JudgesFromRight scope.now operands.now marks.now first.old first.new t) }
{
    let types = judge_all(alloc, scope, operands.as_slice(), first)?;
    let types = reversed_types(types);
    let marks = reversed_places(alloc, marks.as_slice())?;
    Ok(chained(Chain::Boolean, marks.as_slice(), types, first))
}

/// The type of a product.
#[cycle(judge)]
fn judge_product(
    alloc: Global,
    scope: &Scope<'_, '_>,
    operands: &Items<Expr>,
    marks: &Items<Place>,
    first: &mut Option<Fault>,
) -> Result<Option<Ty>, AllocError>
    ensures { IfOk result (λ t. JudgesProduct scope.now operands.now marks.now first.old first.new t) }
{
    let types = judge_all(alloc, scope, operands.as_slice(), first)?;
    let plains = are_plain(alloc, scope, operands.as_slice())?;
    Ok(product(marks.as_slice(), types, plains.as_slice(), first))
}

/// Whether each of several expressions is plain.
fn are_plain(
    alloc: Global,
    scope: &Scope<'_, '_>,
    expressions: &[Expr],
) -> Result<Items<bool>, AllocError>
    ensures { IfOk result (λ bs. bs ≡ map (λ e. (judged e scope.now).plain) expressions.now) }
{
    let mut plains = Items::new(alloc);
    for expression in expressions {
        plains.push(is_plain(scope, expression))?;
    }
    Ok(plains)
}

/// What the arms of a conditional are judged to be.
#[cycle(judge)]
fn judge_branches(
    alloc: Global,
    scope: &Scope<'_, '_>,
    branches: &[Branch<Expr>],
    first: &mut Option<Fault>,
) -> Result<Items<JudgedBranch>, AllocError>
    ensures { IfOk result (λ bs. JudgesBranches scope.now branches.now first.old first.new bs) }
{
    let mut parts = Items::new(alloc);
    for branch in branches {
        let begin = place_of(&branch.condition);
        let condition = judge(alloc, scope, &branch.condition, first)?;
        let value = judge(alloc, scope, &branch.value, first)?;
        parts.push(JudgedBranch {
            place: branch.place,
            begin,
            condition,
            value,
        })?;
    }
    Ok(parts)
}

/// The types of all but the first of several expressions.
#[cycle(judge)]
fn judge_behind(
    alloc: Global,
    scope: &Scope<'_, '_>,
    arguments: &[Expr],
    first: &mut Option<Fault>,
) -> Result<Items<Option<Ty>>, AllocError>
    ensures { IfOk result (λ ts. JudgesAll scope.now (behind arguments.now) first.old first.new ts) }
{
    let mut types = Items::new(alloc);
    let Some((_, rest)) = arguments.split_first() else {
        return Ok(types);
    };
    for argument in rest {
        let ty = judge(alloc, scope, argument, first)?;
        types.push(ty)?;
    }
    Ok(types)
}

/// What a function on bits gives.
#[cycle(judge)]
fn judge_on_bits(
    alloc: Global,
    scope: &Scope<'_, '_>,
    function: BitFunction,
    arguments: &[Expr],
    first: &mut Option<Fault>,
) -> Result<Outcome, AllocError>
    ensures { IfOk result (λ o. JudgesOnBits scope.now function arguments.now first.old first.new o) }
{
    let Some((amount, _)) = arguments.split_first() else {
        return Ok(Outcome::Breaks(Rule::WrongType));
    };
    let number = number_of(amount);
    if is_number_alone(function, number) {
        let mut unnoted = None;
        let alone = judge(alloc, scope, amount, &mut unnoted)?;
        let behind = judge_behind(alloc, scope, arguments, first)?;
        let outcome = bits_outcome(function, number, alone, behind.as_slice());
        return Ok(outcome);
    }
    let ty = judge(alloc, scope, amount, first)?;
    let others = judge_behind(alloc, scope, arguments, first)?;
    Ok(bits_outcome(function, number, ty, others.as_slice()))
}

/// The type of what stands before selections, and then of all of them.
#[cycle(judge)]
fn judge_selected(
    alloc: Global,
    scope: &Scope<'_, '_>,
    begin: Place,
    start: Standing,
    selections: &Items<Selection<Expr>>,
    first: &mut Option<Fault>,
) -> Result<Option<Ty>, AllocError>
    ensures { IfOk result (λ t. JudgesTold scope.now begin (standing_meant scope.now.system.modules start) selections.now first.old first.new t) }
{
    let start = note_standing(start, first);
    judge_selections(alloc, scope, begin, start, selections.as_slice(), first)
}

/// What a primary stands for.
#[cycle(judge)]
fn judge_primary(
    alloc: Global,
    scope: &Scope<'_, '_>,
    begin: Place,
    primary: &Primary<Expr>,
    first: &mut Option<Fault>,
) -> Result<Standing, AllocError>
    ensures { IfOk result (λ s. JudgesPrimary scope.now begin primary.now first.old first.new (standing_meant scope.now.system.modules s)) }
{
    match primary {
        Primary::Truth(_) => Ok(Standing::Value(Some(Ty::Bool))),
        Primary::Number(number) => Ok(Standing::of_outcome(begin, number_literal(*number))),
        Primary::BitsLiteral(number, width) => {
            Ok(Standing::of_outcome(begin, bits_literal(*number, *width)))
        }
        Primary::Name(name, primed) => scope.name_standing(alloc, begin, *name, *primed),
        Primary::Old(name) => scope.old_standing(alloc, begin, *name),
        Primary::Apply(name, arguments) => {
            let types = judge_all(alloc, scope, arguments.as_slice(), first)?;
            let outcome = scope.called_outcome(alloc, *name, types.as_slice())?;
            Ok(Standing::of_outcome(begin, outcome))
        }
        Primary::OnBits(function, arguments) => {
            let outcome = judge_on_bits(alloc, scope, *function, arguments.as_slice(), first)?;
            Ok(Standing::of_outcome(begin, outcome))
        }
        Primary::Grouped(inner) => {
            let ty = judge(alloc, scope, inner.get(), first)?;
            Ok(Standing::Value(ty))
        }
    }
}

/// The type of a value after its selections.
#[cycle(judge)]
fn judge_selections(
    alloc: Global,
    scope: &Scope<'_, '_>,
    begin: Place,
    start: Standing,
    selections: &[Selection<Expr>],
    first: &mut Option<Fault>,
) -> Result<Option<Ty>, AllocError>
    ensures { IfOk result (λ t. JudgesSelections scope.now begin (standing_meant scope.now.system.modules start) selections.now first.old first.new t) }
{
    let mut before = start;
    for selection in selections {
        before = judge_selection(alloc, scope, begin, before, selection, first)?;
    }
    let read = scope.read(begin, before);
    let told = note_standing(read, first);
    Ok(told.into_type())
}

/// What stands behind a selection.
#[cycle(judge)]
fn judge_selection(
    alloc: Global,
    scope: &Scope<'_, '_>,
    begin: Place,
    before: Standing,
    selection: &Selection<Expr>,
    first: &mut Option<Fault>,
) -> Result<Standing, AllocError>
    ensures { IfOk result (λ s. JudgesSelection scope.now begin (standing_meant scope.now.system.modules before) selection.now first.old first.new (standing_meant scope.now.system.modules s)) }
{
    match selection {
        Selection::Field(place, name) => {
            after_field(alloc, scope, begin, before, *place, *name, first)
        }
        Selection::Copy(place, number) => {
            Ok(after_copy(scope, begin, before, *place, *number, first))
        }
        Selection::Element(place, index) => {
            let index = judge(alloc, scope, index, first)?;
            after_element(alloc, scope, begin, before, *place, index, first)
        }
        Selection::Update(place, index, value) => {
            let index = judge(alloc, scope, index, first)?;
            let value = judge(alloc, scope, value, first)?;
            after_update(alloc, scope, begin, before, *place, index, value, first)
        }
        Selection::Extract(place, high, low) => {
            Ok(after_extract(scope, begin, before, *place, *high, *low, first))
        }
    }
}

/// Notes the faults of a condition or a formula: those of the expression, and that it is no boolean, at its first token.
pub fn note_condition(
    alloc: Global,
    scope: &Scope<'_, '_>,
    e: &Expr,
    first: &mut Option<Fault>,
) -> Result<(), AllocError>
    ensures { OnOk result (first.new ≡ first_of first.old (condition_faults scope.now e.now)) }
{
    let ty = judge(alloc, scope, e, first)?;
    settle(first, place_of(e), condition(&ty));
    Ok(())
}
