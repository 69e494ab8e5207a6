//! Terms that are made in a table.

ghost use Rattle.std.specs.Prelude.{◌≡◌, ℕ, ◌<◌, ◌++◌, ◌∷◌, All, length, IfOk};
ghost use Rattle.uc_values.specs.declared.ty.Ty.TheVariants.{Bool};
ghost use Rattle.uc_ops.specs.Typing.{Suits, type_at, types_at};
ghost use Rattle.uc_terms.specs.Tables.{WellTyped};
ghost use Rattle.uc_lower.specs.Made.{Grows, Within, IsMade};
ghost use Rattle.uc_lower.specs.Steps.{IsConjunction, AreTests, IsEquality, AreChosen};

use std::alloc::{AllocError, Global};
use uc_terms::{Op, TermId, Terms};
use uc_values::{Ty, Value};

/// The term of an operation on parts that suit it.
pub(crate) fn made(
    alloc: Global,
    terms: &mut Terms,
    op: Op,
    parts: &[TermId],
) -> Result<TermId, AllocError>
    requires well { WellTyped terms.old }
    requires there { Within terms.old parts.now }
    requires suits { Suits op (types_at terms.old parts.now) }
    ensures made { IfOk result (λ t. IsMade terms.old terms.new t op parts.now) }
    ensures grown { Grows terms.old terms.new }
{
    let t = terms.mk(alloc, op, parts)?;
    let _well_typed = terms.nodes();
    Ok(t)
}

/// The conjunction of booleans, which is true where there are none.
pub(crate) fn conjunction(
    alloc: Global,
    terms: &mut Terms,
    tests: &[TermId],
) -> Result<TermId, AllocError>
    requires well { WellTyped terms.old }
    requires there { Within terms.old tests.now }
    requires booleans { All (λ t. type_at terms.old t ≡ Bool) tests.now }
    ensures conjunction { IfOk result (λ t. IsConjunction terms.old terms.new tests.now t) }
    ensures grown { Grows terms.old terms.new }
{
    if tests.is_empty() {
        let t = made(alloc, terms, Op::Const(Ty::Bool, Value::Bool(true)), &[])?;
        return Ok(t);
    }
    let t = made(alloc, terms, Op::And, tests)?;
    Ok(t)
}

/// Whether each two of the terms of fields are the same.
pub(crate) fn equality(
    alloc: Global,
    terms: &mut Terms,
    left: &[TermId],
    right: &[TermId],
) -> Result<TermId, AllocError>
    requires well { WellTyped terms.old }
    requires left { Within terms.old left.now }
    requires right { Within terms.old right.now }
    requires same { types_at terms.old left.now ≡ types_at terms.old right.now }
    ensures equality { IfOk result (λ t. IsEquality terms.old terms.new left.now right.now t) }
    ensures grown { Grows terms.old terms.new }
{
    let tests = tests(alloc, terms, left, right)?;
    if tests.len() == 1 {
        return Ok(tests[0]);
    }
    let t = conjunction(alloc, terms, tests.as_slice())?;
    Ok(t)
}

/// For each two terms of fields whether they are the same.
fn tests(
    alloc: Global,
    terms: &mut Terms,
    left: &[TermId],
    right: &[TermId],
) -> Result<Vec<TermId>, AllocError>
    requires well { WellTyped terms.old }
    requires left { Within terms.old left.now }
    requires right { Within terms.old right.now }
    requires same { types_at terms.old left.now ≡ types_at terms.old right.now }
    ensures tests { IfOk result (λ ts. AreTests terms.old terms.new left.now right.now (length left.now) ts.items) }
    ensures grown { Grows terms.old terms.new }
{
    let mut tests = Vec::new(alloc);
    for place in 0..left.len() {
        let test = made(alloc, terms, Op::Eq, &[left[place], right[place]])?;
        tests.push(test)?;
    }
    Ok(tests)
}

/// For each two terms of fields the one that the condition chooses.
pub(crate) fn chosen(
    alloc: Global,
    terms: &mut Terms,
    condition: TermId,
    left: &[TermId],
    right: &[TermId],
) -> Result<Vec<TermId>, AllocError>
    requires well { WellTyped terms.old }
    requires condition { condition < length terms.old }
    requires boolean { type_at terms.old condition ≡ Bool }
    requires left { Within terms.old left.now }
    requires right { Within terms.old right.now }
    requires same { types_at terms.old left.now ≡ types_at terms.old right.now }
    ensures chosen { IfOk result (λ ts. AreChosen terms.old terms.new condition left.now right.now (length left.now) ts.items) }
    ensures grown { Grows terms.old terms.new }
{
    let mut chosen = Vec::new(alloc);
    for place in 0..left.len() {
        let one = made(
            alloc,
            terms,
            Op::Ite,
            &[condition, left[place], right[place]],
        )?;
        chosen.push(one)?;
    }
    Ok(chosen)
}
