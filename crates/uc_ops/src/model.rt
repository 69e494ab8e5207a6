//! Models of terms, and maps between their symbols.

use crate::term_id::TermId;
use uc_items::Items;
use uc_values::{Table, Value};

/// A value for each symbol and a table for each function, by their numbers.
#[derive(Drop)]
pub struct Model {
    pub symbols: Items<Value>,
    pub tables: Items<Table>,
}

/// Terms, each with the term that stands for it.
pub struct SymbolMap {
    pub pairs: Items<(TermId, TermId)>,
}

impl Drop for SymbolMap {
    fn drop(self) {
        let SymbolMap { pairs } = self;
        drop(pairs);
    }
}
