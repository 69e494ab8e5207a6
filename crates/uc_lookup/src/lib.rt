//! What a name stands for in a design: the module at a path, and what a module declares by a name.
//!
//! Each call gives, by reference, exactly the part of the design that the definitions of the meaning name.
#![tactic(auto)]

mod declarations;
mod instances;
mod system;

pub use declarations::{
    Defined, Signature, Variable, bound_to, define_of, function_of, procedure_of, variable_of,
};
pub use instances::{InstanceParts, instance_of};
pub use system::{Bound, SystemRef};
