//! The site that a line asks of the last step.

ghost use Rattle.std.specs.Prelude.{◌≡◌};
ghost use Rattle.std.specs.List.{list_any};
ghost use Rattle.std.specs.Option.{option_copied, option_map};
ghost use Rattle.uc_meaning.specs.Cells.{same_path};
ghost use Rattle.uc_meaning.specs.Lookup.{same_place};
ghost use Rattle.uc_meaning.specs.Code.{same_site};
ghost use Rattle.uc_checks.specs.Sites.{site_asked};
ghost use Rattle.uc_checks.specs.Walks.{asks_site};

use uc_items::Items;
use uc_meaning::{Site, What};
use uc_syntax::Place;

/// The site that a line judges.
pub(crate) fn site_of(what: &What) -> Option<&Site>
    ensures { option_copied result ≡ site_asked what.now }
{
    match what {
        What::AtSite(site) => Some(site),
        _ => None,
    }
}

/// Whether a site is among those that are listed, where one is asked and some are given.
pub(crate) fn listed_in(site: Option<&Site>, sites: Option<Items<Site>>) -> Option<bool>
    ensures { result ≡ option_map (asks_site (option_copied site.entry)) sites }
{
    match sites {
        Some(sites) => Some(is_asked(site, sites.as_slice())),
        None => None,
    }
}

fn is_asked(site: Option<&Site>, sites: &[Site]) -> bool
    ensures { result ≡ asks_site (option_copied site.entry) sites.now }
{
    match site {
        Some(site) => is_listed(sites, site),
        None => true,
    }
}

/// Whether a site is among those that are listed.
pub(crate) fn is_listed(sites: &[Site], site: &Site) -> bool
    ensures { result ≡ list_any (same_site site.now) sites.now }
{
    sites.iter().any(|listed| is_same(site, listed))
}

fn is_same(one: &Site, other: &Site) -> bool
    ensures { result ≡ same_site one.now other.now }
{
    is_same_path(one.path.as_slice(), other.path.as_slice())
        && is_same_place(one.place, other.place)
        && one.requires_ == other.requires_
}

fn is_same_place(one: Place, other: Place) -> bool
    ensures { result ≡ same_place one other }
{
    one.file == other.file && one.line == other.line && one.col == other.col
}

#[tactic(auto, unfolding(uc_meaning::specs::Cells::same_path))]
fn is_same_path(left: &[u32], right: &[u32]) -> bool
    ensures { result ≡ same_path left.now right.now }
{
    if left.len() != right.len() {
        return false;
    }
    for place in 0..left.len() {
        if left[place] != right[place] {
            return false;
        }
    }
    true
}
