//! Chains of operators, products, comparisons and signs, by the types of their operands.

ghost use Rattle.std.specs.Prelude.{◌≡◌, map, reverse, IfOk};
ghost use Rattle.uc_rules.specs.Expressions.{chained, product_own};
ghost use Rattle.uc_rules.specs.Rows.{comparison, unary};
ghost use Rattle.uc_expression_rules.specs.Judging.{FindsOutcome, FindsOwn};

use std::alloc::{AllocError, Global};
use uc_items::Items;
use uc_rules::{Chain, Fault, comparison, judge_chain, settle, unary};
use uc_syntax::{Comparison, Place, SumSign, UnaryOperator};
use uc_type_names::judge_product;
use uc_values::Ty;

/// The type of a chain of operators from the left.
pub(crate) fn chained(
    chain: Chain,
    marks: &[Place],
    types: Items<Option<Ty>>,
    first: &mut Option<Fault>,
) -> Option<Ty>
    ensures { FindsOwn first.old first.new result (chained chain marks.now types) }
{
    let mut types = types;
    if types.is_empty() {
        return None;
    }
    let start = types.remove(0);
    judge_chain(chain, first, start, marks, types.as_slice())
}

/// The type of a product, whose factors are plain or not.
#[tactic(auto, using(crate::proofs::Products::product_none, crate::proofs::Products::product_without))]
pub(crate) fn product(
    marks: &[Place],
    types: Items<Option<Ty>>,
    plains: &[bool],
    first: &mut Option<Fault>,
) -> Option<Ty>
    ensures { FindsOwn first.old first.new result (product_own marks.now types plains.now) }
{
    let mut types = types;
    if types.is_empty() {
        return None;
    }
    match plains.split_first() {
        None => None,
        Some((is_plain, others)) => {
            let start = types.remove(0);
            judge_product(first, start, !*is_plain, marks, types.as_slice(), others)
        }
    }
}

/// The type of a comparison.
pub(crate) fn compared(
    mark: Place,
    how: Comparison,
    left: Option<Ty>,
    right: Option<Ty>,
    first: &mut Option<Fault>,
) -> Option<Ty>
    ensures { FindsOutcome first.old first.new result mark (comparison how left right) }
{
    let outcome = comparison(how, &left, &right);
    settle(first, mark, outcome)
}

/// The type of an operator before its operand.
pub(crate) fn signed(
    place: Place,
    operator: UnaryOperator,
    operand: Option<Ty>,
    first: &mut Option<Fault>,
) -> Option<Ty>
    ensures { FindsOutcome first.old first.new result place (unary operator operand) }
{
    let outcome = unary(operator, &operand);
    settle(first, place, outcome)
}

/// The places of the signs of a sum.
pub(crate) fn sign_places(alloc: Global, signs: &[SumSign]) -> Result<Items<Place>, AllocError>
    ensures { IfOk result (λ ps. ps ≡ map (λ s. s.place) signs.now) }
{
    let mut places = Items::new(alloc);
    for sign in signs {
        places.push(sign.place)?;
    }
    Ok(places)
}

/// Places from the last one.
pub(crate) fn reversed_places(alloc: Global, places: &[Place]) -> Result<Items<Place>, AllocError>
    ensures { IfOk result (λ ps. ps ≡ reverse places.now) }
{
    let copies = Items::from_slice(alloc, places)?;
    let mut reversed = copies.into_vec();
    reversed.reverse();
    Ok(Items::from_vec(reversed))
}

/// Types from the last one.
pub(crate) fn reversed_types(types: Items<Option<Ty>>) -> Items<Option<Ty>>
    ensures { result ≡ reverse types }
{
    let mut reversed = types.into_vec();
    reversed.reverse();
    Items::from_vec(reversed)
}
