//! Texts that are read.

use std::alloc::Global;
use uc_items::Items;
use uc_lexer::{MAX_TEXT, tokens};
use uc_parser::parse;
use uc_syntax::{Module, Names};

/// The modules that a text spells, if it is read.
pub(crate) fn modules_of(alloc: Global, names: &mut Names, text: &[u8]) -> Option<Items<Module>> {
    if text.len() > MAX_TEXT {
        return None;
    }
    let tokens = tokens(alloc, 0, text).ok()?;
    parse(alloc, names, 0, text, tokens.as_slice()).ok()
}
