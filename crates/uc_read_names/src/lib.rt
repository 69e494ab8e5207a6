//! What names stand for where an expression reads them: names of enclosing scopes, of the module, of instances, and what is called.
#![tactic(auto)]

mod bit_functions;
mod called;
mod locals;
mod members;
mod modified;
mod names;
mod read;
mod scope;
mod standing;

pub use bit_functions::is_bit_function;
pub use locals::Locals;
pub use modified::Modified;
pub use scope::Scope;
pub use standing::{Standing, copy_type};
