// The functions that are lent all three things. They decide nothing: each reads what is lent, has another function decide by value, and stores what that said.
ghost use Rattle.std.specs.Prelude.{◌≡◌};
ghost use Rattle.rules.specs.meaning.States.{lent};
ghost use Rattle.rules.specs.meaning.Runs.{Stepped, Freshened};
ghost use Rattle.rules.specs.meaning.Acts.{Clear, Acted, Standing};
ghost use Rattle.rules.specs.meaning.Lags.{as_lag, lag_answer};
ghost use Rattle.rules.specs.meaning.Operations.{as_answer};
ghost use Rattle.rules.specs.meaning.Refusals.{number_in};

use crate::lags::lag_seen;
use judge::{judge_seen, sizes_right};
use ledger::{book, see, start};
use links::link_between;
use parcels::{clear_slots, lowest_free, read_slot, scan_slots, store_slot};
use rules::{Ledger, NO_LINK, Parcel, Refusal, Run, Step};
use steps::{decide, link_of, needs_slot, slot_of};

// The inner step judges no link: of no sites none is looked at.
const NO_SITES: u64 = 0;

// One step in a state that is sound, or one that something has refused before. It judges nothing, and sees no more of the slots than the step needs: the
// one that it names and, for a new parcel, those from `low` on up to the lowest free one; and of the ledger the counts and the entry of its link. A refused
// one has stored nothing.
pub fn act(
    words: &mut [u64],
    slots: &mut [Parcel],
    ledger: &mut Ledger,
    run: Run,
    step: Step,
    refused: Result<(), Refusal>,
    low: usize,
) -> Result<u64, Refusal>
    requires { Clear (number_in refused) low run (lent words.old slots.old ledger.old) }
    ensures { Acted (number_in refused) run (lent words.old slots.old ledger.old) step (as_answer result) (lent words.new slots.new ledger.new) }
{
    let held = read_slot(slots, slot_of(step));
    let free = lowest_free(slots, needs_slot(step), low);
    let books = see(ledger, NO_SITES, link_of(step, held, run.sites));
    let taken = decide(words, run, free, held, slots.len(), books, step, refused)?;
    book(ledger, taken.counter, taken.link, taken.pair);
    store_slot(slots, taken.at, taken.parcel);
    Ok(taken.value)
}

// One step in a sound state.
#[tactic(auto, unfolding(rules::specs::meaning::Acts::answer_under, rules::specs::meaning::Acts::after_under))]
pub fn take(
    words: &mut [u64],
    slots: &mut [Parcel],
    ledger: &mut Ledger,
    run: Run,
    step: Step,
    low: usize,
) -> Result<u64, Refusal>
    requires { Standing low run (lent words.old slots.old ledger.old) }
    ensures { Stepped run (lent words.old slots.old ledger.old) step (as_answer result) (lent words.new slots.new ledger.new) }
{
    act(words, slots, ledger, run, step, Ok(()), low)
}

// One step of a run: the state is judged, and the step taken.
pub fn step(
    words: &mut [u64],
    slots: &mut [Parcel],
    ledger: &mut Ledger,
    run: Run,
    step: Step,
) -> Result<u64, Refusal>
    ensures { Stepped run (lent words.old slots.old ledger.old) step (as_answer result) (lent words.new slots.new ledger.new) }
{
    let scan = scan_slots(slots, run.sites);
    let books = see(ledger, run.sites, NO_LINK);
    let judged = judge_seen(words, run, scan, slots.len(), books);
    act(words, slots, ledger, run, step, judged, scan.free)
}

// A fresh run: no id at any site, no parcel, no count, and each link at the first serial. The sizes are judged, and nothing else.
pub fn fresh(
    words: &mut [u64],
    slots: &mut [Parcel],
    ledger: &mut Ledger,
    run: Run,
    first: u32,
) -> Result<(), Refusal>
    ensures { Freshened run first (lent words.old slots.old ledger.old) (number_in result) (lent words.new slots.new ledger.new) }
{
    if !sizes_right(run, words.len(), slots.len()) {
        return Err(Refusal::BadSizes);
    }
    words.fill(0);
    clear_slots(slots, slots.len());
    start(ledger, true, run.sites, first);
    Ok(())
}

// How far the newest serial heard on a link is from the last one sent there. What is lent is only read.
pub fn lag(
    words: &[u64],
    slots: &[Parcel],
    ledger: &Ledger,
    run: Run,
    from: u64,
    to: u64,
) -> Result<i32, Refusal>
    ensures { as_lag result ≡ lag_answer run (lent words.now slots.now ledger.now) from to }
{
    let scan = scan_slots(slots, run.sites);
    let books = see(ledger, run.sites, link_between(run.sites, from, to));
    lag_seen(words, run, scan, slots.len(), books, from, to)
}
