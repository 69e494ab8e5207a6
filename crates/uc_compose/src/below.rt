//! The terms at and below some terms.

ghost use Rattle.std.specs.Prelude.{◌<◌, length, IfOk, All};
ghost use Rattle.uc_compose.specs.Below.{AreBelow};

use crate::waiting::{Waiting, add_all};
use std::alloc::{AllocError, Global};
use uc_items::Items;
use uc_terms::{TermId, Terms};

/// The terms at and below some terms, each once and before its parts. Takes time by what is listed, with its parts, and not by how many terms
/// the table has.
pub(crate) fn below(
    alloc: Global,
    terms: &Terms,
    roots: &[TermId],
) -> Result<Items<TermId>, AllocError>
    requires { All (λ t. t < length terms.now) roots.now }
    ensures { IfOk result (AreBelow terms.now roots.now) }
{
    let _well_typed = terms.len();
    let mut listed = Items::new(alloc);
    let mut waiting = Waiting::new(alloc);
    add_all(&mut waiting, roots)?;
    'walk: while let Some(number) = waiting.take_greatest() {
        let term = TermId::new(number);
        listed.push(term)?;
        add_all(&mut waiting, terms.parts(term))?;
    }
    Ok(listed)
}
