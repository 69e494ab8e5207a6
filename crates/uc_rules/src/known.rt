//! Names of scopes inside a declaration.

use uc_values::Ty;

/// What a name of an inner scope is.
#[derive(Clone, Copy, Debug, PartialEq, Eq)]
pub enum Role {
    Parameter,
    Result,
    Local,
    /// The variable of a loop.
    Counter,
}

/// A parameter, result, local or loop variable. It has no type where its type breaks a rule.
#[derive(Drop)]
pub struct Known {
    pub name: u32,
    pub role: Role,
    pub ty: Option<Ty>,
}
