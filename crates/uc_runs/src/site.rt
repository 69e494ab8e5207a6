//! Sites that are listed.

ghost use Rattle.std.specs.Prelude.{◌≡◌, IfOk};
ghost use Rattle.std.specs.List.{list_any};
ghost use Rattle.uc_meaning.specs.Cells.{same_path};
ghost use Rattle.uc_meaning.specs.Lookup.{same_place};
ghost use Rattle.uc_meaning.specs.Code.{same_site, list_site};

use std::alloc::AllocError;
use uc_items::Items;
use uc_meaning::Site;
use uc_syntax::Place;

/// The sites with one more, unless it is among them.
#[tactic(auto, using(crate::proofs::Listing::known, crate::proofs::Listing::new))]
pub fn list_site(sites: Items<Site>, site: Site) -> Result<Items<Site>, AllocError>
    ensures { IfOk result (λ ss. ss ≡ list_site sites site) }
{
    if is_listed(sites.as_slice(), &site) {
        return Ok(sites);
    }
    let mut more = sites;
    more.push(site)?;
    Ok(more)
}

fn is_listed(sites: &[Site], site: &Site) -> bool
    ensures { result ≡ list_any (same_site site.now) sites.now }
{
    sites.iter().any(|listed| is_same(site, listed))
}

fn is_same(one: &Site, other: &Site) -> bool
    ensures { result ≡ same_site one.now other.now }
{
    is_same_path(one.path.as_slice(), other.path.as_slice())
        && is_same_place(one.place, other.place)
        && one.requires_ == other.requires_
}

fn is_same_place(one: Place, other: Place) -> bool
    ensures { result ≡ same_place one other }
{
    one.file == other.file && one.line == other.line && one.col == other.col
}

#[tactic(auto, unfolding(uc_meaning::specs::Cells::same_path))]
fn is_same_path(left: &[u32], right: &[u32]) -> bool
    ensures { result ≡ same_path left.now right.now }
{
    if left.len() != right.len() {
        return false;
    }
    for place in 0..left.len() {
        if left[place] != right[place] {
            return false;
        }
    }
    true
}
