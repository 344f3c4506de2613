// The function that is lent all three things. It decides nothing: what is lent to be read is seen by value, and another function is lent the words.
ghost use Rattle.rules.specs.meaning.States.{lent};
ghost use Rattle.rules.specs.meaning.Operations.{as_answer};
ghost use Rattle.rules.specs.meaning.Events.{absorbs, Happened};

use crate::seen::absorb_seen;
use ledger::see;
use parcels::scan_slots;
use rules::{Ledger, NO_LINK, Parcel, Refusal, Run};

// "Absorbing a group's bytes at a site": the state is judged, and the group's entries are joined into the site's table, all or none. No update is
// counted and no serial is heard, so the ledger is only read.
pub fn absorb(
    words: &mut [u64],
    slots: &[Parcel],
    ledger: &Ledger,
    run: Run,
    site: u64,
    bytes: &[u8],
) -> Result<u64, Refusal>
    ensures { Happened run (lent words.old slots.now ledger.now) (absorbs site bytes.now) (as_answer result) (lent words.new slots.now ledger.now) }
{
    let scan = scan_slots(slots, run.sites);
    let books = see(ledger, run.sites, NO_LINK);
    absorb_seen(words, run, scan, slots.len(), books, site, bytes)
}
