// The ledger: the counts, and an entry for each link of a run. What each means is said in `specs/` of the crate `rules`.
// Here the ledger is lent: it is looked into, stored to and passed on, and no function copies the entries. What is decided is decided by value,
// in the crates `counts` and `links`.
#![tactic(auto)]

ghost use Rattle.std.specs.Prelude.{◌≡◌, get_or, length};
ghost use Rattle.rules.specs.meaning.Lengths.{M};
ghost use Rattle.rules.specs.meaning.Links.{no_pair, links_sound};
ghost use Rattle.rules.specs.meaning.Ledgers.{seen_of, booked_ledger, started_if};

use counts::{emptied, raised};
use links::{links_of, pair_sound, sites_of, sites_to_start, start_pair};
use rules::{Ledger, Pair, Seen};

// The entry of a link. Past the last one there is none, and nothing is read.
fn read_pair(ledger: &Ledger, link: usize) -> Pair
    ensures { result ≡ get_or ledger.now.pairs link no_pair }
{
    ledger.pairs.get(link).copied().unwrap_or_default()
}

// Whether the entry of each link of the run is sound. It goes from link to link, so no other entry is read; and it never stops early, so that a
// turn has no branch but the loop's own.
fn links_sound(ledger: &Ledger, sites: u64) -> bool
    ensures { result ≡ links_sound sites ledger.now.pairs }
{
    let mut good = true;
    for link in links_of(sites_of(sites)) {
        good &= pair_sound(ledger.pairs[16 * link.from + link.to]);
    }
    good
}

// All that a step asks of the ledger.
pub fn see(ledger: &Ledger, sites: u64, link: usize) -> Seen
    ensures { result ≡ seen_of sites link ledger.now }
{
    Seen {
        counts: ledger.counts,
        link,
        pair: read_pair(ledger, link),
        sound: links_sound(ledger, sites),
    }
}

// All that a step changes of the ledger. Counter 0, and any above 4, raises none; a link past the last entry sets none. Whoever books nothing has to know
// how many entries there are, so it tells that too.
pub fn book(ledger: &mut Ledger, counter: u64, link: usize, pair: Pair)
    ensures booked { ledger.new ≡ booked_ledger M counter link pair ledger.old }
    ensures whole { length ledger.old.pairs ≡ 256 }
{
    ledger.counts = raised(ledger.counts, counter);
    // A slice, whose length `whole` tells; and no `get_mut`, after which a proof knows no entry.
    let pairs: &mut [Pair] = &mut ledger.pairs;
    if link < pairs.len() {
        pairs[link] = pair;
    }
}

// What a fresh run makes of the ledger, where that is wanted. Where it is not, the loop goes over the links of no site, so no branch is needed.
pub fn start(ledger: &mut Ledger, wanted: bool, sites: u64, first: u32)
    ensures { ledger.new ≡ started_if wanted sites first ledger.old }
{
    ledger.counts = emptied(ledger.counts, wanted);
    let pair = start_pair(first);
    for link in links_of(sites_to_start(wanted, sites)) {
        ledger.pairs[16 * link.from + link.to] = pair;
    }
}
