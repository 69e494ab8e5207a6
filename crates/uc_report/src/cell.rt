//! The cells that a counterexample shows.

use uc_meaning::Path;

/// A cell: the instances from main down to it, the number of the declaration in its module, and the number of its name.
#[derive(Drop)]
pub struct CellRef {
    pub path: Path,
    pub decl: u32,
    pub name: u32,
}
