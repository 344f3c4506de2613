// The links of a run, by number: how many sites have entries, and where the entry of a link is.
ghost use Rattle.std.specs.Prelude.{◌≡◌, if◌then◌else◌};
ghost use Rattle.rules.specs.meaning.Links.{linked, link_between};

use rules::NO_LINK;

// How many sites have entries. It cuts a number of sites that no run has, since a ledger is judged whatever the sizes are.
pub fn sites_of(sites: u64) -> usize
    ensures { result ≡ linked sites }
{
    sites.min(16) as usize
}

// How many sites are started: none where that is not wanted.
pub fn sites_to_start(wanted: bool, sites: u64) -> usize
    ensures { result ≡ linked (if wanted then sites else 0) }
{
    if wanted { sites_of(sites) } else { 0 }
}

// The place of the entry of one site to another. Where they are no link of the run it is past the last entry, so that whoever reads or stores
// there need not ask.
#[tactic(auto, unfolding(rules::specs::meaning::Links::link_between))]
pub fn link_between(sites: u64, from: u64, to: u64) -> usize
    ensures { result ≡ link_between sites from to }
{
    let n = sites_of(sites) as u64;
    if from < n && to < n && from != to {
        16 * from as usize + to as usize
    } else {
        NO_LINK
    }
}
