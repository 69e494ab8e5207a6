//! Expressions.

ghost use Rattle.std.specs.Prelude.{◌≡◌, IfOk};

use crate::place::{Identifier, Place};
use std::alloc::{AllocError, Global};
use uc_items::{Boxed, Items, beside};

/// A sign in front of an operand.
#[derive(Clone, Copy, Debug, PartialEq, Eq)]
pub enum UnaryOperator {
    /// `!`
    Not,
    /// `-`
    Negate,
    /// `~`
    Complement,
}

/// How two operands are compared. Bit-vectors count as signed where the name does not say otherwise.
#[derive(Clone, Copy, Debug, PartialEq, Eq)]
pub enum Comparison {
    Equal,
    Unequal,
    Less,
    AtMost,
    Greater,
    AtLeast,
    LessUnsigned,
    AtMostUnsigned,
    GreaterUnsigned,
    AtLeastUnsigned,
}

/// `+` or `-` between two operands of a sum.
#[derive(Clone, Copy, Debug, PartialEq, Eq)]
pub struct SumSign {
    pub place: Place,
    pub is_minus: bool,
}

/// The functions on bits that every module knows.
#[derive(Clone, Copy, Debug, PartialEq, Eq)]
pub enum BitFunction {
    /// `bv_zero_extend`
    ZeroExtend,
    /// `bv_sign_extend`
    SignExtend,
    /// `bv_left_shift`
    ShiftLeft,
    /// `bv_l_right_shift`
    ShiftRight,
    /// `bv_a_right_shift`
    ShiftRightSigned,
}

/// What stands behind a primary. `E` is the type of an expression.
pub enum Selection<E> {
    /// `.name`: a field, or a name of an instance.
    Field(Place, Identifier),
    /// `.number`: the copy of a hyper formula.
    Copy(Place, u128),
    /// `[index]`
    Element(Place, E),
    /// `[index -> value]`
    Update(Place, E, E),
    /// `[high:low]`
    Extract(Place, u128, u128),
}

/// What selections may follow. `E` is the type of an expression.
pub enum Primary<E> {
    Truth(bool),
    Number(u128),
    /// The value and the width.
    BitsLiteral(u128, u32),
    /// A name, and whether a prime follows.
    Name(u32, bool),
    /// A function or a define.
    Apply(u32, Items<E>),
    /// A function on bits: its number or amount, and the bits.
    OnBits(BitFunction, Items<E>),
    /// `old(name)`
    Old(Identifier),
    /// An expression in parentheses that has selections.
    Grouped(Boxed<E>),
}

/// An arm of a conditional: the place of its `if`, its condition and its value. `E` is the type of an expression.
pub struct Branch<E> {
    pub place: Place,
    pub condition: E,
    pub value: E,
}

/// A chain of one level is one node. It has its operands, and the places of the operators between them.
pub enum Expr {
    /// The arms of a chain of `else if`, and what stands behind the last `else`.
    If(Place, Items<Branch<Expr>>, Boxed<Expr>),
    Iff(Place, Items<Expr>, Items<Place>),
    Implies(Place, Items<Expr>, Items<Place>),
    Or(Place, Items<Expr>, Items<Place>),
    And(Place, Items<Expr>, Items<Place>),
    Compare(Place, Comparison, Place, Boxed<Expr>, Boxed<Expr>),
    BitOr(Place, Items<Expr>, Items<Place>),
    BitXor(Place, Items<Expr>, Items<Place>),
    BitAnd(Place, Items<Expr>, Items<Place>),
    Concat(Place, Items<Expr>, Items<Place>),
    Sum(Place, Items<Expr>, Items<SumSign>),
    Product(Place, Items<Expr>, Items<Place>),
    Unary(Place, UnaryOperator, Boxed<Expr>),
    /// A primary with all its selections.
    Selected(Place, Primary<Expr>, Items<Selection<Expr>>),
}

impl Expr {
    /// The same expression again.
    #[cycle(copy_expressions)]
    pub fn copy(&self, alloc: Global) -> Result<Expr, AllocError>
        ensures { IfOk result (λ e. e ≡ self.now) }
    {
        match self {
            Expr::If(place, branches, otherwise) => {
                let branches = copy_branches(alloc, branches.as_slice())?;
                let otherwise = copy_boxed(alloc, otherwise)?;
                Ok(Expr::If(*place, branches, otherwise))
            }
            Expr::Iff(place, operands, marks) => {
                let (operands, marks) = copy_chain(alloc, operands, marks)?;
                Ok(Expr::Iff(*place, operands, marks))
            }
            Expr::Implies(place, operands, marks) => {
                let (operands, marks) = copy_chain(alloc, operands, marks)?;
                Ok(Expr::Implies(*place, operands, marks))
            }
            Expr::Or(place, operands, marks) => {
                let (operands, marks) = copy_chain(alloc, operands, marks)?;
                Ok(Expr::Or(*place, operands, marks))
            }
            Expr::And(place, operands, marks) => {
                let (operands, marks) = copy_chain(alloc, operands, marks)?;
                Ok(Expr::And(*place, operands, marks))
            }
            Expr::Compare(place, comparison, mark, left, right) => {
                let left = copy_boxed(alloc, left)?;
                let right = copy_boxed(alloc, right)?;
                Ok(Expr::Compare(*place, *comparison, *mark, left, right))
            }
            Expr::BitOr(place, operands, marks) => {
                let (operands, marks) = copy_chain(alloc, operands, marks)?;
                Ok(Expr::BitOr(*place, operands, marks))
            }
            Expr::BitXor(place, operands, marks) => {
                let (operands, marks) = copy_chain(alloc, operands, marks)?;
                Ok(Expr::BitXor(*place, operands, marks))
            }
            Expr::BitAnd(place, operands, marks) => {
                let (operands, marks) = copy_chain(alloc, operands, marks)?;
                Ok(Expr::BitAnd(*place, operands, marks))
            }
            Expr::Concat(place, operands, marks) => {
                let (operands, marks) = copy_chain(alloc, operands, marks)?;
                Ok(Expr::Concat(*place, operands, marks))
            }
            Expr::Sum(place, operands, marks) => {
                let operands = copy_expressions(alloc, operands.as_slice())?;
                let marks = Items::from_slice(alloc, marks.as_slice())?;
                Ok(Expr::Sum(*place, operands, marks))
            }
            Expr::Product(place, operands, marks) => {
                let (operands, marks) = copy_chain(alloc, operands, marks)?;
                Ok(Expr::Product(*place, operands, marks))
            }
            Expr::Unary(place, operator, operand) => {
                let operand = copy_boxed(alloc, operand)?;
                Ok(Expr::Unary(*place, *operator, operand))
            }
            Expr::Selected(place, primary, selections) => {
                let primary = copy_primary(alloc, primary)?;
                let (primary, selections) = beside(
                    primary,
                    copy_selections(alloc, selections.as_slice()),
                )?;
                Ok(Expr::Selected(*place, primary, selections))
            }
        }
    }
}

/// The same expressions again.
#[cycle(copy_expressions)]
pub fn copy_expressions(alloc: Global, expressions: &[Expr]) -> Result<Items<Expr>, AllocError>
    ensures { IfOk result (λ es. es ≡ expressions.now) }
{
    let mut copies = Items::new(alloc);
    for expression in expressions {
        let expression = expression.copy(alloc)?;
        copies.push(expression)?;
    }
    Ok(copies)
}

// The operands of a chain, and the places of its operators.
#[cycle(copy_expressions)]
fn copy_chain(
    alloc: Global,
    operands: &Items<Expr>,
    marks: &Items<Place>,
) -> Result<(Items<Expr>, Items<Place>), AllocError>
    ensures { IfOk result (λ chain. (chain.0 ≡ operands.now) × (chain.1 ≡ marks.now)) }
{
    let operands = copy_expressions(alloc, operands.as_slice())?;
    let marks = Items::from_slice(alloc, marks.as_slice())?;
    Ok((operands, marks))
}

#[cycle(copy_expressions)]
fn copy_primary(alloc: Global, primary: &Primary<Expr>) -> Result<Primary<Expr>, AllocError>
    ensures { IfOk result (λ p. p ≡ primary.now) }
{
    match primary {
        Primary::Truth(truth) => Ok(Primary::Truth(*truth)),
        Primary::Number(number) => Ok(Primary::Number(*number)),
        Primary::BitsLiteral(value, width) => Ok(Primary::BitsLiteral(*value, *width)),
        Primary::Name(name, is_primed) => Ok(Primary::Name(*name, *is_primed)),
        Primary::Apply(name, arguments) => {
            let arguments = copy_expressions(alloc, arguments.as_slice())?;
            Ok(Primary::Apply(*name, arguments))
        }
        Primary::OnBits(function, arguments) => {
            let arguments = copy_expressions(alloc, arguments.as_slice())?;
            Ok(Primary::OnBits(*function, arguments))
        }
        Primary::Old(name) => Ok(Primary::Old(*name)),
        Primary::Grouped(expression) => {
            let expression = copy_boxed(alloc, expression)?;
            Ok(Primary::Grouped(expression))
        }
    }
}

#[cycle(copy_expressions)]
fn copy_branches(
    alloc: Global,
    branches: &[Branch<Expr>],
) -> Result<Items<Branch<Expr>>, AllocError>
    ensures { IfOk result (λ bs. bs ≡ branches.now) }
{
    let mut copies = Items::new(alloc);
    for branch in branches {
        let condition = branch.condition.copy(alloc)?;
        let (condition, value) = beside(condition, branch.value.copy(alloc))?;
        copies.push(Branch {
            place: branch.place,
            condition,
            value,
        })?;
    }
    Ok(copies)
}

#[cycle(copy_expressions)]
fn copy_boxed(alloc: Global, expression: &Boxed<Expr>) -> Result<Boxed<Expr>, AllocError>
    ensures { IfOk result (λ e. e ≡ expression.now) }
{
    let copy = expression.get().copy(alloc)?;
    let copy = Boxed::new(alloc, copy)?;
    Ok(copy)
}

#[cycle(copy_expressions)]
fn copy_selections(
    alloc: Global,
    selections: &[Selection<Expr>],
) -> Result<Items<Selection<Expr>>, AllocError>
    ensures { IfOk result (λ ss. ss ≡ selections.now) }
{
    let mut copies = Items::new(alloc);
    for selection in selections {
        let copy = match selection {
            Selection::Field(place, name) => Selection::Field(*place, *name),
            Selection::Copy(place, number) => Selection::Copy(*place, *number),
            Selection::Element(place, index) => {
                let index = index.copy(alloc)?;
                Selection::Element(*place, index)
            }
            Selection::Update(place, index, value) => {
                let index = index.copy(alloc)?;
                let (index, value) = beside(index, value.copy(alloc))?;
                Selection::Update(*place, index, value)
            }
            Selection::Extract(place, high, low) => Selection::Extract(*place, *high, *low),
        };
        copies.push(copy)?;
    }
    Ok(copies)
}

impl<E: Drop> Drop for Selection<E> {
    fn drop(self) {
        match self {
            Selection::Field(_, _) | Selection::Copy(_, _) | Selection::Extract(_, _, _) => {}
            Selection::Element(_, index) => drop(index),
            Selection::Update(_, index, value) => {
                drop(index);
                drop(value);
            }
        }
    }
}

impl<E: Drop> Drop for Primary<E> {
    fn drop(self) {
        match self {
            Primary::Truth(_)
            | Primary::Number(_)
            | Primary::BitsLiteral(_, _)
            | Primary::Name(_, _)
            | Primary::Old(_) => {}
            Primary::Apply(_, arguments) => drop(arguments),
            Primary::OnBits(_, arguments) => drop(arguments),
            Primary::Grouped(inner) => drop(inner),
        }
    }
}

impl<E: Drop> Drop for Branch<E> {
    fn drop(self) {
        let Branch {
            place: _,
            condition,
            value,
        } = self;
        drop(condition);
        drop(value);
    }
}

impl Drop for Expr {
    fn drop(self) {
        match self {
            Expr::If(_, branches, otherwise) => {
                drop(branches);
                drop(otherwise);
            }
            Expr::Iff(_, operands, marks)
            | Expr::Implies(_, operands, marks)
            | Expr::Or(_, operands, marks)
            | Expr::And(_, operands, marks)
            | Expr::BitOr(_, operands, marks)
            | Expr::BitXor(_, operands, marks)
            | Expr::BitAnd(_, operands, marks)
            | Expr::Concat(_, operands, marks)
            | Expr::Product(_, operands, marks) => {
                drop(operands);
                drop(marks);
            }
            Expr::Sum(_, operands, signs) => {
                drop(operands);
                drop(signs);
            }
            Expr::Compare(_, _, _, left, right) => {
                drop(left);
                drop(right);
            }
            Expr::Unary(_, _, operand) => drop(operand),
            Expr::Selected(_, primary, selections) => {
                drop(primary);
                drop(selections);
            }
        }
    }
}
