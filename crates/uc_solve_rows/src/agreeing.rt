//! Whether each operation has the value of its term, on parts of given widths.

ghost use Rattle.std.specs.Prelude.{◌≡◌, ◌≤◌, ◌^◌};

use crate::comparing::agrees_everywhere;
use crate::operations::{
    Extension, Junction, Pair, Single, extension_op, junction_op, pair_op, single_op,
};
use std::alloc::Global;
use std::test::Fail;
use uc_terms::Op;
use uc_values::{Ty, Value};

/// The greatest width of a low part, and how many bits are added at most.
const MOST: u8 = 4;

#[tactic(auto, using(crate::proofs::Fineness::fine_pair))]
pub(crate) fn pair_agrees(alloc: Global, pair: Pair, width: u8) -> Result<bool, Fail>
    requires some { 1 ≤ width }
    requires few { width ≤ 4 }
{
    agrees_everywhere(alloc, pair_op(pair), &[Ty::Bv(width), Ty::Bv(width)])
}

#[tactic(auto, using(crate::proofs::Fineness::fine_single))]
pub(crate) fn single_agrees(alloc: Global, single: Single, width: u8) -> Result<bool, Fail>
    requires some { 1 ≤ width }
    requires few { width ≤ 4 }
{
    agrees_everywhere(alloc, single_op(single), &[Ty::Bv(width)])
}

/// Whether it does where no bit is added, and where up to four are.
#[tactic(auto, using(crate::proofs::Fineness::fine_single))]
pub(crate) fn extension_agrees(alloc: Global, extension: Extension, width: u8) -> Result<bool, Fail>
    requires some { 1 ≤ width }
    requires few { width ≤ 4 }
{
    for more in 0..MOST + 1 {
        if !agrees_everywhere(alloc, extension_op(extension, more), &[Ty::Bv(width)])? {
            return Ok(false);
        }
    }
    Ok(true)
}

/// Whether it does for each pair of places.
#[tactic(auto, using(crate::proofs::Fineness::fine_single))]
pub(crate) fn extraction_agrees(alloc: Global, width: u8) -> Result<bool, Fail>
    requires some { 1 ≤ width }
    requires few { width ≤ 4 }
{
    for high in 0..width {
        for low in 0..high + 1 {
            if !agrees_everywhere(alloc, Op::Extract(high, low), &[Ty::Bv(width)])? {
                return Ok(false);
            }
        }
    }
    Ok(true)
}

/// Whether it does for a high part of the width and low parts of up to four bits.
#[tactic(auto, using(crate::proofs::Fineness::fine_pair))]
pub(crate) fn concatenation_agrees(alloc: Global, width: u8) -> Result<bool, Fail>
    requires some { 1 ≤ width }
    requires few { width ≤ 4 }
{
    for low in 1..MOST + 1 {
        if !agrees_everywhere(alloc, Op::Concat, &[Ty::Bv(width), Ty::Bv(low)])? {
            return Ok(false);
        }
    }
    Ok(true)
}

/// Whether a choice of bit-vectors does.
#[tactic(auto, using(crate::proofs::Fineness::fine_choice))]
pub(crate) fn choice_agrees(alloc: Global, width: u8) -> Result<bool, Fail>
    requires some { 1 ≤ width }
    requires few { width ≤ 4 }
{
    agrees_everywhere(alloc, Op::Ite, &[Ty::Bool, Ty::Bv(width), Ty::Bv(width)])
}

/// Whether each constant of the width does.
#[tactic(auto, using(crate::proofs::Suiting::bits_suit, crate::proofs::Fineness::none_fine))]
pub(crate) fn constants_agree(alloc: Global, width: u8) -> Result<bool, Fail>
    requires some { 1 ≤ width }
    requires few { width ≤ 4 }
{
    for bits in 0..count_of(width) {
        let constant = Op::Const(Ty::Bv(width), Value::Bv(width, bits));
        if !agrees_everywhere(alloc, constant, &[])? {
            return Ok(false);
        }
    }
    Ok(true)
}

/// How many bit-vectors of the width there are.
fn count_of(width: u8) -> u64
    requires { width ≤ 4 }
    ensures { result ≡ 2 ^ width }
{
    1u64 << width
}

/// Whether it does on one, two and three booleans.
#[tactic(auto, using(crate::proofs::Fineness::fine_truths))]
pub(crate) fn junction_agrees(alloc: Global, junction: Junction) -> Result<bool, Fail> {
    let op = junction_op(junction);
    if !agrees_everywhere(alloc, op, &[Ty::Bool])? {
        return Ok(false);
    }
    let op = junction_op(junction);
    if !agrees_everywhere(alloc, op, &[Ty::Bool, Ty::Bool])? {
        return Ok(false);
    }
    let op = junction_op(junction);
    agrees_everywhere(alloc, op, &[Ty::Bool, Ty::Bool, Ty::Bool])
}

#[tactic(auto, using(crate::proofs::Fineness::fine_truths))]
pub(crate) fn negation_agrees(alloc: Global) -> Result<bool, Fail> {
    agrees_everywhere(alloc, Op::Not, &[Ty::Bool])
}

/// Whether the equality of booleans does.
#[tactic(auto, using(crate::proofs::Fineness::fine_truths))]
pub(crate) fn equality_agrees(alloc: Global) -> Result<bool, Fail> {
    agrees_everywhere(alloc, Op::Eq, &[Ty::Bool, Ty::Bool])
}

/// Whether a choice of booleans does.
#[tactic(auto, using(crate::proofs::Fineness::fine_truths))]
pub(crate) fn truth_choice_agrees(alloc: Global) -> Result<bool, Fail> {
    agrees_everywhere(alloc, Op::Ite, &[Ty::Bool, Ty::Bool, Ty::Bool])
}

/// Whether both boolean constants do.
#[tactic(auto, using(crate::proofs::Suiting::truth_suits, crate::proofs::Fineness::none_fine))]
pub(crate) fn truths_agree(alloc: Global) -> Result<bool, Fail> {
    for truth in [false, true] {
        let constant = Op::Const(Ty::Bool, Value::Bool(truth));
        if !agrees_everywhere(alloc, constant, &[])? {
            return Ok(false);
        }
    }
    Ok(true)
}
