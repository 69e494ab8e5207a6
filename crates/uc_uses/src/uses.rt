//! What may be used.

use uc_syntax::{Expr, Procedure};

/// What is used.
#[derive(Clone, Copy, Debug, PartialEq, Eq)]
pub enum UseKind {
    Define,
    Procedure,
    /// An input to which the node above binds an expression.
    Input,
}

/// A define, a procedure or a bound input by its name in a node of a tree of instances.
#[derive(Clone, Copy)]
pub struct UseName {
    pub kind: UseKind,
    pub node: usize,
    pub name: u32,
}

/// The text of a use, with the node in which it is read.
#[derive(Clone, Copy)]
pub enum Source<'a> {
    Expression(usize, &'a Expr),
    Procedure(usize, &'a Procedure),
}

/// A use with its text.
#[derive(Clone, Copy)]
pub struct NumberedUse<'a> {
    pub owner: UseName,
    pub source: Source<'a>,
}

/// A name with the text that stands under it.
#[derive(Clone, Copy)]
pub(crate) struct Entry<'a> {
    pub(crate) name: u32,
    pub(crate) source: Source<'a>,
}
