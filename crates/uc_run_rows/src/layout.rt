//! The design that a text spells, and its layout.

use std::alloc::{AllocError, Global};
use uc_items::Items;
use uc_layout::Layout;
use uc_lexer::{MAX_TEXT, tokens};
use uc_parser::parse;
use uc_syntax::{Design, Names};

/// The design that a text spells, if it is a list of modules.
pub(crate) fn design_of(alloc: Global, text: &[u8]) -> Result<Option<Design>, AllocError> {
    if text.len() > MAX_TEXT {
        return Ok(None);
    }
    let Ok(tokens) = tokens(alloc, 0, text) else {
        return Ok(None);
    };
    let mut names = Names::new(alloc);
    let file = names.intern(alloc, b"main.ucl")?;
    let Ok(modules) = parse(alloc, &mut names, 0, text, tokens.as_slice()) else {
        return Ok(None);
    };
    let mut files = Items::new(alloc);
    files.push(file)?;
    Ok(Some(Design::of(alloc, names, files, modules)?))
}

/// The layout of a text with its first module as main, if it is a list of modules.
pub(crate) fn layout_of(alloc: Global, text: &[u8]) -> Result<Option<Layout>, AllocError> {
    let Some(design) = design_of(alloc, text)? else {
        return Ok(None);
    };
    Ok(Some(Layout::of(alloc, design, 0)?))
}
