//! Statements.

ghost use Rattle.std.specs.Prelude.{◌≡◌, IfOk};

use crate::expression::{Expr, copy_expressions};
use crate::place::{Identifier, Place};
use crate::type_expression::TypeExpr;
use std::alloc::{AllocError, Global};
use uc_items::{Items, beside};

/// What stands behind the name of a target, with the place of its first sign.
pub enum TargetPart {
    /// `.name`
    Field(Place, Identifier),
    /// `[index]`
    Element(Place, Expr),
}

/// What an assignment or a call writes.
pub struct Target {
    pub place: Place,
    pub name: u32,
    pub is_primed: bool,
    pub parts: Items<TargetPart>,
}

/// A condition and the block that it guards. `S` is the type of a statement.
pub struct Arm<S> {
    pub condition: Expr,
    pub body: Items<S>,
}

/// A bound of `range`: whether it has a minus and its number, or a bit-vector literal by value and width.
#[derive(Clone, Copy, Debug, PartialEq, Eq)]
pub enum RangeBound {
    Number(Place, bool, u128),
    BitsLiteral(Place, u128, u32),
}

/// A statement, with the place of its first word.
pub enum Stmt {
    /// `var names : type;`
    Local(Place, Items<Identifier>, TypeExpr),
    Skip(Place),
    Block(Place, Items<Stmt>),
    Assert(Place, Option<Identifier>, Expr),
    Assume(Place, Expr),
    /// The name, and whether a prime follows.
    Havoc(Place, Identifier, bool),
    Assign(Place, Items<Target>, Items<Expr>),
    /// The arms of a chain of `else if`, and the block of `else`.
    If(Place, Items<Arm<Stmt>>, Option<Items<Stmt>>),
    Case(Place, Items<Arm<Stmt>>, Option<Items<Stmt>>),
    /// The variable, its type if it is written, the bounds and the body.
    For(Place, Identifier, Option<TypeExpr>, RangeBound, RangeBound, Items<Stmt>),
    /// The targets, the procedure and the arguments.
    Call(Place, Items<Target>, Identifier, Items<Expr>),
    /// `next (name);`
    Next(Place, Identifier),
}

impl TargetPart {
    fn copy(&self, alloc: Global) -> Result<TargetPart, AllocError>
        ensures { IfOk result (λ p. p ≡ self.now) }
    {
        match self {
            TargetPart::Field(place, name) => Ok(TargetPart::Field(*place, *name)),
            TargetPart::Element(place, index) => {
                let index = index.copy(alloc)?;
                Ok(TargetPart::Element(*place, index))
            }
        }
    }
}

impl Target {
    /// The same target again.
    pub fn copy(&self, alloc: Global) -> Result<Target, AllocError>
        ensures { IfOk result (λ t. t ≡ self.now) }
    {
        let parts = copy_target_parts(alloc, self.parts.as_slice())?;
        Ok(Target {
            place: self.place,
            name: self.name,
            is_primed: self.is_primed,
            parts,
        })
    }
}

fn copy_target_parts(alloc: Global, parts: &[TargetPart]) -> Result<Items<TargetPart>, AllocError>
    ensures { IfOk result (λ ps. ps ≡ parts.now) }
{
    let mut copies = Items::new(alloc);
    for part in parts {
        let part = part.copy(alloc)?;
        copies.push(part)?;
    }
    Ok(copies)
}

/// The same targets again.
pub fn copy_targets(alloc: Global, targets: &[Target]) -> Result<Items<Target>, AllocError>
    ensures { IfOk result (λ ts. ts ≡ targets.now) }
{
    let mut copies = Items::new(alloc);
    for target in targets {
        let target = target.copy(alloc)?;
        copies.push(target)?;
    }
    Ok(copies)
}

// The targets of an assignment or a call, and the expressions beside them.
fn copy_written(
    alloc: Global,
    targets: &Items<Target>,
    expressions: &Items<Expr>,
) -> Result<(Items<Target>, Items<Expr>), AllocError>
    ensures { IfOk result (λ written. (written.0 ≡ targets.now) × (written.1 ≡ expressions.now)) }
{
    let targets = copy_targets(alloc, targets.as_slice())?;
    let expressions = copy_expressions(alloc, expressions.as_slice())?;
    Ok((targets, expressions))
}

// The names that are declared together, and their type.
pub(crate) fn copy_named(
    alloc: Global,
    names: &Items<Identifier>,
    ty: &TypeExpr,
) -> Result<(Items<Identifier>, TypeExpr), AllocError>
    ensures { IfOk result (λ named. (named.0 ≡ names.now) × (named.1 ≡ ty.now)) }
{
    let names = Items::from_slice(alloc, names.as_slice())?;
    let ty = ty.copy(alloc)?;
    Ok((names, ty))
}

fn copy_optional_type(alloc: Global, ty: &Option<TypeExpr>) -> Result<Option<TypeExpr>, AllocError>
    ensures { IfOk result (λ t. t ≡ ty.now) }
{
    match ty {
        None => Ok(None),
        Some(ty) => {
            let ty = ty.copy(alloc)?;
            Ok(Some(ty))
        }
    }
}

impl Stmt {
    /// The same statement again.
    #[cycle(copy_statements)]
    pub fn copy(&self, alloc: Global) -> Result<Stmt, AllocError>
        ensures { IfOk result (λ s. s ≡ self.now) }
    {
        match self {
            Stmt::Local(place, names, ty) => {
                let (names, ty) = copy_named(alloc, names, ty)?;
                Ok(Stmt::Local(*place, names, ty))
            }
            Stmt::Skip(place) => Ok(Stmt::Skip(*place)),
            Stmt::Block(place, block) => {
                let block = copy_block(alloc, block.as_slice())?;
                Ok(Stmt::Block(*place, block))
            }
            Stmt::Assert(place, name, condition) => {
                let condition = condition.copy(alloc)?;
                Ok(Stmt::Assert(*place, *name, condition))
            }
            Stmt::Assume(place, condition) => {
                let condition = condition.copy(alloc)?;
                Ok(Stmt::Assume(*place, condition))
            }
            Stmt::Havoc(place, name, is_primed) => Ok(Stmt::Havoc(*place, *name, *is_primed)),
            Stmt::Assign(place, targets, sources) => {
                let (targets, sources) = copy_written(alloc, targets, sources)?;
                Ok(Stmt::Assign(*place, targets, sources))
            }
            Stmt::If(place, arms, otherwise) => {
                let arms = copy_arms(alloc, arms.as_slice())?;
                let otherwise = copy_optional_block(alloc, otherwise)?;
                Ok(Stmt::If(*place, arms, otherwise))
            }
            Stmt::Case(place, arms, otherwise) => {
                let arms = copy_arms(alloc, arms.as_slice())?;
                let otherwise = copy_optional_block(alloc, otherwise)?;
                Ok(Stmt::Case(*place, arms, otherwise))
            }
            Stmt::For(place, variable, ty, from, to, body) => {
                let ty = copy_optional_type(alloc, ty)?;
                let (ty, body) = beside(ty, copy_block(alloc, body.as_slice()))?;
                Ok(Stmt::For(*place, *variable, ty, *from, *to, body))
            }
            Stmt::Call(place, targets, procedure, arguments) => {
                let (targets, arguments) = copy_written(alloc, targets, arguments)?;
                Ok(Stmt::Call(*place, targets, *procedure, arguments))
            }
            Stmt::Next(place, instance) => Ok(Stmt::Next(*place, *instance)),
        }
    }
}

/// The same statements again.
#[cycle(copy_statements)]
pub fn copy_block(alloc: Global, block: &[Stmt]) -> Result<Items<Stmt>, AllocError>
    ensures { IfOk result (λ ss. ss ≡ block.now) }
{
    let mut copies = Items::new(alloc);
    for statement in block {
        let statement = statement.copy(alloc)?;
        copies.push(statement)?;
    }
    Ok(copies)
}

#[cycle(copy_statements)]
fn copy_optional_block(
    alloc: Global,
    block: &Option<Items<Stmt>>,
) -> Result<Option<Items<Stmt>>, AllocError>
    ensures { IfOk result (λ b. b ≡ block.now) }
{
    match block {
        None => Ok(None),
        Some(block) => {
            let block = copy_block(alloc, block.as_slice())?;
            Ok(Some(block))
        }
    }
}

#[cycle(copy_statements)]
fn copy_arms(alloc: Global, arms: &[Arm<Stmt>]) -> Result<Items<Arm<Stmt>>, AllocError>
    ensures { IfOk result (λ rs. rs ≡ arms.now) }
{
    let mut copies = Items::new(alloc);
    for arm in arms {
        let body = copy_block(alloc, arm.body.as_slice())?;
        let condition = arm.condition.copy(alloc)?;
        copies.push(Arm { condition, body })?;
    }
    Ok(copies)
}

impl Drop for TargetPart {
    fn drop(self) {
        match self {
            TargetPart::Field(_, _) => {}
            TargetPart::Element(_, index) => drop(index),
        }
    }
}

impl Drop for Target {
    fn drop(self) {
        let Target {
            place: _,
            name: _,
            is_primed: _,
            parts,
        } = self;
        drop(parts);
    }
}

impl<S: Drop> Drop for Arm<S> {
    fn drop(self) {
        let Arm { condition, body } = self;
        drop(condition);
        drop(body);
    }
}

impl Drop for Stmt {
    fn drop(self) {
        match self {
            Stmt::Skip(_) | Stmt::Havoc(_, _, _) | Stmt::Next(_, _) => {}
            Stmt::Local(_, names, ty) => {
                drop(names);
                drop(ty);
            }
            Stmt::Block(_, body) => drop(body),
            Stmt::Assert(_, _, condition) => drop(condition),
            Stmt::Assume(_, condition) => drop(condition),
            Stmt::Assign(_, targets, values) => {
                drop(targets);
                drop(values);
            }
            Stmt::If(_, arms, otherwise) | Stmt::Case(_, arms, otherwise) => {
                drop(arms);
                drop(otherwise);
            }
            Stmt::For(_, _, ty, _, _, body) => {
                drop(ty);
                drop(body);
            }
            Stmt::Call(_, targets, _, arguments) => {
                drop(targets);
                drop(arguments);
            }
        }
    }
}
