//! The syntax tree of a design, as the grammar has it. Grouping parentheses leave no node.
#![tactic(auto)]

mod declaration;
mod design;
mod expression;
mod names;
mod place;
mod statement;
mod type_expression;
mod written_enums;

pub use declaration::{
    Binding, Clause, Command, Decl, Module, Procedure, VariableKind, WrittenRun, copy_declarations,
    copy_modules,
};
pub use design::Design;
pub use expression::{
    BitFunction, Branch, Comparison, Expr, Primary, Selection, SumSign, UnaryOperator,
    copy_expressions,
};
pub use names::Names;
pub use place::{Identifier, Place};
pub use statement::{Arm, RangeBound, Stmt, Target, TargetPart, copy_block, copy_targets};
pub use type_expression::{Parameter, TypeExpr, copy_parameters};
