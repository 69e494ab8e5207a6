//! Terms of expressions.

ghost use Rattle.std.specs.Prelude.{◌≡◌, List, IfOk, map, All};
ghost use Rattle.uc_values.specs.declared.ty.Ty.{Ty as AType};
ghost use Rattle.uc_terms.specs.Values.{value};
ghost use Rattle.uc_flat.specs.Reading.{type_of, value_of};
ghost use Rattle.uc_flat.specs.Fine.{IsTyped, ReadsTyped};
ghost use Rattle.uc_symstep.specs.Growing.{Grows, IsTerm, AreTerms, AreCells};
ghost use Rattle.uc_symstep.specs.Known.{IsKnown};

use std::alloc::{AllocError, Global};
use uc_flat::Expression;
use uc_items::{Items, at};
use uc_ops::copy_op;
use uc_terms::{TermId, Terms};
use uc_values::Ty;

/// A term whose value is that of the expression, under every model, where the cells have the values of their terms.
#[cycle(sym_expression)]
#[tactic(auto, using(crate::proofs::Grown::grows_on))]
pub fn sym_expression(
    terms: &mut Terms,
    alloc: Global,
    types: &[Ty],
    cells: &[TermId],
    e: &Expression,
) -> Result<TermId, AllocError>
    requires cells { AreCells terms.old types.now cells.now }
    requires typed { IsTyped types.now e.now }
    ensures ok { IfOk result (λ t. IsTerm terms.old terms.new t (type_of types.now e.now) (λ m. value_of m types.now (map (value m terms.old) cells.now) e.now)) }
    ensures known { IfOk result (λ t. (supply : List AType) → ReadsTyped supply e.now → All (IsKnown supply terms.old) cells.now → IsKnown supply terms.new t) }
    ensures grown { Grows terms.old terms.new }
{
    match e {
        Expression::Cell(k) => match at(cells, *k as usize) {
            Some(t) => Ok(*t),
            None => unreachable!(),
        },
        Expression::Apply(op, parts) => {
            let made = sym_parts(terms, alloc, types, cells, parts.as_slice())?;
            let op = copy_op(alloc, op)?;
            let t = terms.mk(alloc, op, made.as_slice())?;
            Ok(t)
        }
    }
}

/// A term for each of the expressions.
#[cycle(sym_expression)]
#[tactic(auto, using(crate::proofs::Grown::grows_on))]
pub(crate) fn sym_parts(
    terms: &mut Terms,
    alloc: Global,
    types: &[Ty],
    cells: &[TermId],
    parts: &[Expression],
) -> Result<Items<TermId>, AllocError>
    requires cells { AreCells terms.old types.now cells.now }
    requires typed { All (IsTyped types.now) parts.now }
    ensures ok { IfOk result (λ ts. AreTerms terms.old terms.new ts (map (type_of types.now) parts.now) (λ m. map (value_of m types.now (map (value m terms.old) cells.now)) parts.now)) }
    ensures known { IfOk result (λ ts. (supply : List AType) → All (ReadsTyped supply) parts.now → All (IsKnown supply terms.old) cells.now → All (IsKnown supply terms.new) ts) }
    ensures grown { Grows terms.old terms.new }
{
    let mut made = Items::new(alloc);
    for part in parts {
        let t = sym_expression(terms, alloc, types, cells, part)?;
        made.push(t)?;
    }
    Ok(made)
}
