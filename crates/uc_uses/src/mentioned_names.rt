//! What is mentioned.

ghost use Rattle.std.specs.Prelude.{◌≡◌, ◌++◌, ◌∷◌, [], IfOk, OnOk};
ghost use Rattle.uc_order_rules.specs.Mentions.{dotted};
ghost use Rattle.uc_uses.specs.Meant.{field_of, meant, mention_meant};

use std::alloc::{AllocError, Global};
use uc_items::Items;
use uc_syntax::{Expr, Selection};

/// A name that an expression mentions.
#[derive(Drop)]
pub enum Mentioned {
    /// A name that is read, whether a prime follows it, and the names behind its dots.
    Read(u32, bool, Items<u32>),
    /// A function or a define that is applied.
    Applied(u32),
    /// A name at entry.
    AtEntry(u32),
}

pub(crate) fn push(mentioned: Mentioned, mentions: &mut Items<Mentioned>) -> Result<(), AllocError>
    ensures { OnOk result (meant mentions.new ≡ meant mentions.old ++ mention_meant mentioned ∷ []) }
{
    mentions.push(mentioned)?;
    Ok(())
}

/// The names behind the dots that follow a name.
pub(crate) fn dotted(
    alloc: Global,
    selections: &[Selection<Expr>],
) -> Result<Items<u32>, AllocError>
    ensures { IfOk result (λ names. names ≡ dotted selections.now) }
{
    let mut names = Items::new(alloc);
    for selection in selections {
        match field_of(selection) {
            Some(name) => names.push(name)?,
            None => return Ok(names),
        }
    }
    Ok(names)
}

/// The name of a field.
fn field_of(selection: &Selection<Expr>) -> Option<u32>
    ensures { result ≡ field_of selection.now }
{
    match selection {
        Selection::Field(_, identifier) => Some(identifier.name),
        _ => None,
    }
}
