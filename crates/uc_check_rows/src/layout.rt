//! The layout of the design that a text spells.

use std::alloc::{AllocError, Global};
use uc_items::Items;
use uc_layout::Layout;
use uc_lexer::{MAX_TEXT, tokens};
use uc_parser::parse;
use uc_syntax::{Design, Names};

/// The layout of a text with its first module as main, if it is a list of modules.
pub(crate) fn layout_of(alloc: Global, text: &[u8]) -> Result<Option<Layout>, AllocError> {
    if text.len() > MAX_TEXT {
        return Ok(None);
    }
    let Ok(tokens) = tokens(alloc, 0, text) else {
        return Ok(None);
    };
    let mut names = Names::new(alloc);
    let file = names.intern(alloc, b"main.ucl")?;
    let Ok(modules) = parse(alloc, &mut names, 0, text, tokens.as_slice()) else {
        return Ok(None);
    };
    let mut files = Items::new(alloc);
    files.push(file)?;
    let design = Design::of(alloc, names, files, modules)?;
    Ok(Some(Layout::of(alloc, design, 0)?))
}
