//! Operations on typed expressions, where they suit the types.

ghost use Rattle.std.specs.Prelude.{◌≡◌, ◌<◌, ◌∷◌, ◌&&◌, [], nat_eq, length, map, if◌then◌else◌, Some, None, IfOk};
ghost use Rattle.std.specs.List.{list_all, position_from};
ghost use Rattle.std.specs.Option.{option_map};
ghost use Rattle.uc_flat_expressions.specs.Answers.{IsAnswer};
ghost use Rattle.uc_flat_expressions.specs.Building.{operation, constant, expressions_in, are_truths, negation, junction, implied_parts, implication, chain_op, starts, joined_type, concat_type, joined, chain_from, chain, sign_chain, sum_from, sum, bits_only, unary_of, ordered, equality, inequality, comparison, choice, field_selected, is_range, range_selected, extension, shift, on_bits};
ghost use Rattle.uc_flat_expressions.specs.Fields.{named_field};
ghost use Rattle.uc_ops.specs.Equality.{equal_types};
ghost use Rattle.uc_ops.specs.declared.op.Op.TheVariants.{Ite};
ghost use Rattle.uc_flat_expressions.specs.Types.{is_boolean, is_bits, are_same_bits};

use crate::holding::{built_where, with};
use crate::typed::{FlatError, TypedExpression};
use crate::types::{are_same_bits, is_bits, is_boolean};
use std::alloc::{AllocError, Global};
use uc_flat::Expression;
use uc_items::{Items, at, beside};
use uc_ops::{Op, equal_types};
use uc_syntax::{BitFunction, Comparison, SumSign, UnaryOperator};
use uc_values::{Field, Ty, copy_ty};

/// A binary operation that a chain applies from the left.
#[derive(Clone, Copy, Debug, PartialEq, Eq)]
pub enum Chain {
    Equal,
    Or,
    Xor,
    And,
    Concat,
    Add,
    Subtract,
    Multiply,
}

fn expressions_of(
    alloc: Global,
    parts: Items<TypedExpression>,
) -> Result<Items<Expression>, AllocError>
    ensures { IfOk result (λ es. es ≡ expressions_in parts) }
{
    let mut expressions = Items::new(alloc);
    for part in parts.into_vec() {
        expressions.push(part.expression)?;
    }
    Ok(expressions)
}

/// An operation on parts, which gives a type.
fn operation(
    alloc: Global,
    op: Op,
    ty: Ty,
    parts: Items<TypedExpression>,
) -> Result<TypedExpression, AllocError>
    ensures { IfOk result (λ t. t ≡ operation op ty parts) }
{
    let ((op, ty), expressions) = beside((op, ty), expressions_of(alloc, parts))?;
    Ok(TypedExpression {
        expression: Expression::Apply(op, expressions),
        ty,
        number: None,
    })
}

/// An operation without parts.
pub(crate) fn constant(alloc: Global, op: Op, ty: Ty) -> TypedExpression
    ensures { result ≡ constant op ty }
{
    TypedExpression {
        expression: Expression::Apply(op, Items::new(alloc)),
        ty,
        number: None,
    }
}

fn on_one(alloc: Global, op: Op, ty: Ty, a: TypedExpression) -> Result<TypedExpression, AllocError>
    ensures { IfOk result (λ t. t ≡ operation op ty (a ∷ [])) }
{
    let ((op, ty), parts) = beside((op, ty), one(alloc, a))?;
    operation(alloc, op, ty, parts)
}

fn one<T: Drop>(alloc: Global, first: T) -> Result<Items<T>, AllocError>
    ensures { IfOk result (λ items. items ≡ first ∷ []) }
{
    let mut items = Items::new(alloc);
    items.push(first)?;
    Ok(items)
}

fn on_two(
    alloc: Global,
    op: Op,
    ty: Ty,
    a: TypedExpression,
    b: TypedExpression,
) -> Result<TypedExpression, AllocError>
    ensures { IfOk result (λ t. t ≡ operation op ty (a ∷ b ∷ [])) }
{
    let ((op, ty), parts) = beside((op, ty), two(alloc, a, b))?;
    operation(alloc, op, ty, parts)
}

fn two<T: Drop>(alloc: Global, first: T, second: T) -> Result<Items<T>, AllocError>
    ensures { IfOk result (λ items. items ≡ first ∷ second ∷ []) }
{
    let mut items = one(alloc, first)?;
    items.push(second)?;
    Ok(items)
}

/// Whether there are parts, and all are truth values.
fn are_truths(parts: &[TypedExpression]) -> bool
    ensures { result ≡ are_truths parts.now }
{
    match parts {
        [] => false,
        [first, rest @ ..] => is_boolean(&first.ty) && all_truths(rest),
    }
}

fn all_truths(parts: &[TypedExpression]) -> bool
    ensures { result ≡ list_all (λ u. is_boolean u.ty) parts.now }
{
    parts.iter().all(|part| is_boolean(&part.ty))
}

/// The negation of a truth value.
fn negation(alloc: Global, a: TypedExpression) -> Result<TypedExpression, AllocError>
    ensures { IfOk result (λ t. t ≡ negation a) }
{
    let t = on_one(alloc, Op::Not, Ty::Bool, a)?;
    Ok(t)
}

/// All of the parts, or some of them.
pub(crate) fn junction(
    alloc: Global,
    op: Op,
    parts: Items<TypedExpression>,
) -> Result<TypedExpression, FlatError>
    ensures { IsAnswer (junction op parts) result }
{
    let (op, parts) = built_where(are_truths(parts.as_slice()), (op, parts))?;
    let t = operation(alloc, op, Ty::Bool, parts)?;
    Ok(t)
}

/// The negations of truth values.
fn negations(
    alloc: Global,
    parts: Items<TypedExpression>,
) -> Result<Items<TypedExpression>, AllocError>
    ensures { IfOk result (λ ts. ts ≡ map negation parts) }
{
    let mut made = Items::new(alloc);
    for part in parts.into_vec() {
        let part = negation(alloc, part)?;
        made.push(part)?;
    }
    Ok(made)
}

/// The parts of a chain of implications: all but the last one negated.
#[tactic(auto, unfolding(crate::specs::Building::implied_parts), using(crate::proofs::Forms::implied_front))]
fn implied_parts(
    alloc: Global,
    parts: Items<TypedExpression>,
) -> Result<Items<TypedExpression>, AllocError>
    ensures { IfOk result (λ ts. ts ≡ implied_parts parts) }
{
    let mut front = parts;
    let Some(last) = front.pop() else {
        return Ok(Items::new(alloc));
    };
    let (last, mut made) = beside(last, negations(alloc, front))?;
    made.push(last)?;
    Ok(made)
}

/// Implications, grouped from the right.
pub(crate) fn implication(
    alloc: Global,
    parts: Items<TypedExpression>,
) -> Result<TypedExpression, FlatError>
    ensures { IsAnswer (implication parts) result }
{
    if !are_truths(parts.as_slice()) {
        return Err(FlatError::NotBuilt);
    }
    let parts = implied_parts(alloc, parts)?;
    let t = operation(alloc, Op::Or, Ty::Bool, parts)?;
    Ok(t)
}

fn chain_op(kind: Chain) -> Op
    ensures { result ≡ chain_op kind }
{
    match kind {
        Chain::Equal => Op::Eq,
        Chain::Or => Op::BvOr,
        Chain::Xor => Op::BvXor,
        Chain::And => Op::BvAnd,
        Chain::Concat => Op::Concat,
        Chain::Add => Op::BvAdd,
        Chain::Subtract => Op::BvSub,
        Chain::Multiply => Op::BvMul,
    }
}

/// Whether a chain may begin with a value of this type.
fn starts(kind: Chain, ty: &Ty) -> bool
    ensures { result ≡ starts kind ty.now }
{
    match kind {
        Chain::Equal => is_boolean(ty),
        _ => is_bits(ty),
    }
}

/// The type of bits behind each other, where 64 bits hold them.
fn concat_type(high: u8, low: u8) -> Option<Ty>
    ensures { result ≡ concat_type high low }
{
    let width = u16::from(high) + u16::from(low);
    if width > 64 {
        return None;
    }
    Some(Ty::Bv(width as u8))
}

/// The type of what a chain's operation gives.
fn joined_type(kind: Chain, a: &Ty, b: &Ty) -> Option<Ty>
    ensures { result ≡ joined_type kind a.now b.now }
{
    match (a, b) {
        (Ty::Bool, Ty::Bool) => match kind {
            Chain::Equal => Some(Ty::Bool),
            _ => None,
        },
        (Ty::Bv(high), Ty::Bv(low)) => match kind {
            Chain::Equal => None,
            Chain::Concat => concat_type(*high, *low),
            _ => {
                if high != low {
                    return None;
                }
                Some(Ty::Bv(*high))
            }
        },
        _ => None,
    }
}

fn joined(
    alloc: Global,
    kind: Chain,
    a: TypedExpression,
    b: TypedExpression,
) -> Result<TypedExpression, FlatError>
    ensures { IsAnswer (joined kind a b) result }
{
    let (ty, (a, b)) = with(joined_type(kind, &a.ty, &b.ty), (a, b))?;
    let t = on_two(alloc, chain_op(kind), ty, a, b)?;
    Ok(t)
}

/// A chain of one operation, from the left.
pub(crate) fn from_left(
    alloc: Global,
    kind: Chain,
    parts: Items<TypedExpression>,
) -> Result<TypedExpression, FlatError>
    ensures { IsAnswer (chain kind parts) result }
{
    let mut rest = parts;
    if rest.is_empty() {
        return Err(FlatError::NotBuilt);
    }
    let first = rest.remove(0);
    let first = built_where(starts(kind, &first.ty), first)?;
    chain_from(alloc, kind, first, rest)
}

#[tactic(auto, unfolding(crate::specs::Building::chain_from))]
fn chain_from(
    alloc: Global,
    kind: Chain,
    first: TypedExpression,
    rest: Items<TypedExpression>,
) -> Result<TypedExpression, FlatError>
    ensures { IsAnswer (chain_from kind first rest) result }
{
    let mut whole = first;
    for part in rest.into_vec() {
        whole = joined(alloc, kind, whole, part)?;
    }
    Ok(whole)
}

fn sign_chain(sign: SumSign) -> Chain
    ensures { result ≡ sign_chain sign }
{
    if sign.is_minus {
        Chain::Subtract
    } else {
        Chain::Add
    }
}

/// A sum, with the sign before each part after the first, from the left.
pub(crate) fn sum(
    alloc: Global,
    signs: &[SumSign],
    parts: Items<TypedExpression>,
) -> Result<TypedExpression, FlatError>
    ensures { IsAnswer (sum signs.now parts) result }
{
    let mut rest = parts;
    if rest.is_empty() {
        return Err(FlatError::NotBuilt);
    }
    let first = rest.remove(0);
    let first = built_where(is_bits(&first.ty), first)?;
    sum_from(alloc, signs, first, rest)
}

#[tactic(auto, unfolding(crate::specs::Building::sum_from))]
fn sum_from(
    alloc: Global,
    signs: &[SumSign],
    first: TypedExpression,
    rest: Items<TypedExpression>,
) -> Result<TypedExpression, FlatError>
    ensures { IsAnswer (sum_from first signs.now rest) result }
{
    let mut whole = first;
    let mut left = signs;
    for part in rest.into_vec() {
        let [sign, more @ ..] = left else {
            return Ok(whole);
        };
        whole = joined(alloc, sign_chain(*sign), whole, part)?;
        left = more;
    }
    Ok(whole)
}

/// A type of bits.
fn bits_type(ty: &Ty) -> Option<Ty>
    ensures { result ≡ (if is_bits ty.now then Some ty.now else None) }
{
    match ty {
        Ty::Bv(width) => Some(Ty::Bv(*width)),
        _ => None,
    }
}

fn bits_only(alloc: Global, op: Op, a: TypedExpression) -> Result<TypedExpression, FlatError>
    ensures { IsAnswer (bits_only op a) result }
{
    let (ty, (op, a)) = with(bits_type(&a.ty), (op, a))?;
    let t = on_one(alloc, op, ty, a)?;
    Ok(t)
}

pub(crate) fn unary_of(
    alloc: Global,
    operator: UnaryOperator,
    a: TypedExpression,
) -> Result<TypedExpression, FlatError>
    ensures { IsAnswer (unary_of operator a) result }
{
    match operator {
        UnaryOperator::Not => {
            let a = built_where(is_boolean(&a.ty), a)?;
            let t = negation(alloc, a)?;
            Ok(t)
        }
        UnaryOperator::Negate => bits_only(alloc, Op::BvNeg, a),
        UnaryOperator::Complement => bits_only(alloc, Op::BvNot, a),
    }
}

/// An order on bits of one width.
fn ordered(
    alloc: Global,
    op: Op,
    a: TypedExpression,
    b: TypedExpression,
) -> Result<TypedExpression, FlatError>
    ensures { IsAnswer (ordered op a b) result }
{
    let (op, (a, b)) = built_where(are_same_bits(&a.ty, &b.ty), (op, (a, b)))?;
    let t = on_two(alloc, op, Ty::Bool, a, b)?;
    Ok(t)
}

fn equality(
    alloc: Global,
    a: TypedExpression,
    b: TypedExpression,
) -> Result<TypedExpression, FlatError>
    ensures { IsAnswer (equality a b) result }
{
    let (a, b) = built_where(equal_types(&a.ty, &b.ty), (a, b))?;
    let t = on_two(alloc, Op::Eq, Ty::Bool, a, b)?;
    Ok(t)
}

fn inequality(
    alloc: Global,
    a: TypedExpression,
    b: TypedExpression,
) -> Result<TypedExpression, FlatError>
    ensures { IsAnswer (inequality a b) result }
{
    let equal = equality(alloc, a, b)?;
    let t = negation(alloc, equal)?;
    Ok(t)
}

pub(crate) fn comparison(
    alloc: Global,
    how: Comparison,
    a: TypedExpression,
    b: TypedExpression,
) -> Result<TypedExpression, FlatError>
    ensures { IsAnswer (comparison how a b) result }
{
    match how {
        Comparison::Equal => equality(alloc, a, b),
        Comparison::Unequal => inequality(alloc, a, b),
        Comparison::Less => ordered(alloc, Op::Slt, a, b),
        Comparison::AtMost => ordered(alloc, Op::Sle, a, b),
        Comparison::Greater => ordered(alloc, Op::Slt, b, a),
        Comparison::AtLeast => ordered(alloc, Op::Sle, b, a),
        Comparison::LessUnsigned => ordered(alloc, Op::Ult, a, b),
        Comparison::AtMostUnsigned => ordered(alloc, Op::Ule, a, b),
        Comparison::GreaterUnsigned => ordered(alloc, Op::Ult, b, a),
        Comparison::AtLeastUnsigned => ordered(alloc, Op::Ule, b, a),
    }
}

/// One of two values of one type, by a condition.
pub(crate) fn choice(
    alloc: Global,
    condition: TypedExpression,
    a: TypedExpression,
    b: TypedExpression,
) -> Result<TypedExpression, FlatError>
    ensures { IsAnswer (choice condition a b) result }
{
    let may_choose = may_choose(&condition.ty, &a.ty, &b.ty);
    let (condition, (a, b)) = built_where(may_choose, (condition, (a, b)))?;
    let t = chosen(alloc, condition, a, b)?;
    Ok(t)
}

/// Whether one type is that of a condition, and two are one.
fn may_choose(condition: &Ty, a: &Ty, b: &Ty) -> bool
    ensures { result ≡ (is_boolean condition.now && equal_types a.now b.now) }
{
    is_boolean(condition) && equal_types(a, b)
}

/// The first value where the condition holds, else the second one.
fn chosen(
    alloc: Global,
    condition: TypedExpression,
    a: TypedExpression,
    b: TypedExpression,
) -> Result<TypedExpression, AllocError>
    ensures { IfOk result (λ t. t ≡ operation Ite a.ty (condition ∷ a ∷ b ∷ [])) }
{
    let ty = copy_ty(alloc, &a.ty);
    let ((condition, (a, b)), ty) = beside((condition, (a, b)), ty)?;
    let parts = three(alloc, condition, a, b)?;
    operation(alloc, Op::Ite, ty, parts)
}

fn three<T: Drop>(alloc: Global, first: T, second: T, third: T) -> Result<Items<T>, AllocError>
    ensures { IfOk result (λ items. items ≡ first ∷ second ∷ third ∷ []) }
{
    let mut items = two(alloc, first, second)?;
    items.push(third)?;
    Ok(items)
}

/// The first place of a field's name.
fn field_place(fields: &[Field<Ty>], name: u32) -> Option<usize>
    ensures { result ≡ position_from (λ d. nat_eq d.name name) 0 fields.now }
{
    for (place, field) in fields.iter().enumerate() {
        if field.name == name {
            return Some(place);
        }
    }
    None
}

/// A field of a record.
#[tactic(auto, using(crate::proofs::Fields::field_of_none, crate::proofs::Fields::field_of_some))]
pub(crate) fn field_selected(
    alloc: Global,
    a: TypedExpression,
    name: u32,
) -> Result<TypedExpression, FlatError>
    ensures { IsAnswer (field_selected a name) result }
{
    let found = named_field(alloc, &a.ty, name);
    let (a, (place, ty)) = beside(a, found)?;
    let t = on_one(alloc, Op::GetField(place), ty, a)?;
    Ok(t)
}

/// The first place of a record's field of a name, and its type.
fn named_field(alloc: Global, whole: &Ty, name: u32) -> Result<(u32, Ty), FlatError>
    ensures { IsAnswer (named_field whole.now name) result }
{
    let Ty::Rec(fields) = whole else {
        return Err(FlatError::NotBuilt);
    };
    let Some(place) = field_place(fields.as_slice(), name) else {
        return Err(FlatError::NotBuilt);
    };
    let Some(field) = at(fields.as_slice(), place) else {
        return Err(FlatError::NotBuilt);
    };
    let Ok(place) = u32::try_from(place) else {
        return Err(FlatError::NoMemory);
    };
    let ty = copy_ty(alloc, &field.ty)?;
    Ok((place, ty))
}

/// Whether a bit-vector has bits from the high one down to the low one.
fn is_range(high: u128, low: u128, ty: &Ty) -> bool
    ensures { result ≡ is_range high low ty.now }
{
    match ty {
        Ty::Bv(width) => low <= high && high < u128::from(*width),
        _ => false,
    }
}

/// Bits of a bit-vector.
pub(crate) fn range_selected(
    alloc: Global,
    a: TypedExpression,
    high: u128,
    low: u128,
) -> Result<TypedExpression, FlatError>
    ensures { IsAnswer (range_selected a high low) result }
{
    let a = built_where(is_range(high, low, &a.ty), a)?;
    let (high, low) = (high as u8, low as u8);
    let t = on_one(alloc, Op::Extract(high, low), Ty::Bv(high - low + 1), a)?;
    Ok(t)
}

/// The operation that puts more bits in front of bits, and its type, where 64 bits hold them.
fn extended(signed: bool, more: Option<u8>, ty: &Ty) -> Option<(Op, Ty)>
    ensures { (a : TypedExpression) → a.ty ≡ ty.now → extension signed more a ≡ option_map (λ r. operation r.0 r.1 (a ∷ [])) result }
{
    let (Some(more), Ty::Bv(width)) = (more, ty) else {
        return None;
    };
    let ty = concat_type(*width, more)?;
    let op = if signed {
        Op::SignExt(more)
    } else {
        Op::ZeroExt(more)
    };
    Some((op, ty))
}

/// Bits with more bits in front, whose number is a literal.
fn extension(
    alloc: Global,
    signed: bool,
    more: Option<u8>,
    a: TypedExpression,
) -> Result<TypedExpression, FlatError>
    ensures { IsAnswer (extension signed more a) result }
{
    let ((op, ty), a) = with(extended(signed, more, &a.ty), a)?;
    let t = on_one(alloc, op, ty, a)?;
    Ok(t)
}

/// A shift of bits by bits of the same width.
fn shift(
    alloc: Global,
    op: Op,
    amount: TypedExpression,
    a: TypedExpression,
) -> Result<TypedExpression, FlatError>
    ensures { IsAnswer (shift op amount a) result }
{
    let (ty, (op, (a, amount))) = with(same_bits(&amount.ty, &a.ty), (op, (a, amount)))?;
    let t = on_two(alloc, op, ty, a, amount)?;
    Ok(t)
}

/// The type of bits that both are.
fn same_bits(a: &Ty, b: &Ty) -> Option<Ty>
    ensures { result ≡ (if are_same_bits a.now b.now then Some b.now else None) }
{
    if !are_same_bits(a, b) {
        return None;
    }
    bits_type(b)
}

/// The number that a literal is.
fn literal(t: TypedExpression) -> Option<u8>
    ensures { result ≡ t.number }
{
    t.number
}

/// A function on bits: its number or amount, and the bits.
pub(crate) fn on_bits(
    alloc: Global,
    function: BitFunction,
    number: TypedExpression,
    a: TypedExpression,
) -> Result<TypedExpression, FlatError>
    ensures { IsAnswer (on_bits function number a) result }
{
    match function {
        BitFunction::ZeroExtend => extension(alloc, false, literal(number), a),
        BitFunction::SignExtend => extension(alloc, true, literal(number), a),
        BitFunction::ShiftLeft => shift(alloc, Op::Shl, number, a),
        BitFunction::ShiftRight => shift(alloc, Op::Lshr, number, a),
        BitFunction::ShiftRightSigned => shift(alloc, Op::Ashr, number, a),
    }
}
