// The function that is lent all three things. It decides nothing: what is lent to be read is seen by value, and another function is lent the words.
ghost use Rattle.rules.specs.meaning.States.{lent};
ghost use Rattle.rules.specs.meaning.Operations.{as_answer};
ghost use Rattle.rules.specs.meaning.Events.{round, Happened};

use crate::seen::repair_seen;
use ledger::see;
use parcels::scan_slots;
use rules::{Ledger, NO_LINK, Parcel, Refusal, Run};

// "site 0 takes in the others in rising order, then each other site takes in site 0": the state is judged once, and the answer's value is the number of merges.
// No update is counted and no parcel moves, so the ledger and the slots are only read.
pub fn repair(
    words: &mut [u64],
    slots: &[Parcel],
    ledger: &Ledger,
    run: Run,
) -> Result<u64, Refusal>
    ensures { Happened run (lent words.old slots.now ledger.now) round (as_answer result) (lent words.new slots.now ledger.now) }
{
    let scan = scan_slots(slots, run.sites);
    let books = see(ledger, run.sites, NO_LINK);
    repair_seen(words, run, scan, slots.len(), books)
}
