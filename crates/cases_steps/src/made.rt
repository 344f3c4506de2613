// Runs and states made by value.
ghost use Rattle.std.specs.Prelude.{◌<◌};

use kept::{Kept, fresh_kept};
use rules::{Counts, M, Pair, Parcel, Run};

// 48 words are 3 tables of 8 entries, 12 of 2, 8 of 3, or 1 of 24.
pub(crate) const THREE_SITES: Run = Run {
    sites: 3,
    capacity: 8,
};

pub(crate) const TWELVE_SITES: Run = Run {
    sites: 12,
    capacity: 2,
};

pub(crate) const EIGHT_SITES: Run = Run {
    sites: 8,
    capacity: 3,
};

pub(crate) const ONE_SITE: Run = Run {
    sites: 1,
    capacity: 24,
};

// From site 0, or from site 1 where it goes to site 0.
pub(crate) fn parcel_to(site: u64, id: u64, length: u64) -> Parcel {
    let sender: u32 = if site == 0 { 1 } else { 0 };
    Parcel {
        site: site,
        id: id,
        length: length,
        sender: sender,
        serial: 0,
    }
}

pub(crate) fn pair_of(next: u32, heard: u32, unsent: u32, unheard: u32) -> Pair {
    Pair {
        next: next,
        heard: heard,
        unsent: unsent,
        unheard: unheard,
    }
}

// Places are counted over all tables: with capacity C, site k's first is k × C.
pub(crate) fn with_entry(mut state: Kept, place: usize, id: u64, length: u64) -> Kept
    requires { place < 24 }
{
    state.words[2 * place] = id;
    state.words[2 * place + 1] = length;
    state
}

pub(crate) fn with_parcel(mut state: Kept, slot: usize, parcel: Parcel) -> Kept
    requires { slot < 8 }
{
    state.slots[slot] = parcel;
    state
}

pub(crate) fn with_ledger(
    mut state: Kept,
    sent: u64,
    copied: u64,
    absorbed: u64,
    lost: u64,
) -> Kept {
    state.ledger.counts = Counts {
        sent,
        copied,
        absorbed,
        lost,
    };
    state
}

// The entry of site a to site b stands at 16 a + b.
pub(crate) fn with_pair(mut state: Kept, at: usize, pair: Pair) -> Kept
    requires { at < 256 }
{
    state.ledger.pairs[at] = pair;
    state
}

// Every slot is occupied and sent, copied and absorbed are at M, so that 9 and 10 hold wherever they are asked for.
pub(crate) fn all_waiting() -> Kept {
    let mut state = with_ledger(fresh_kept(0), M, M, M, M - 8);
    state.slots = [parcel_to(2, 7, 1); 8];
    state
}
