// What an accepted step comes to, by value: what it answers, the counter that it earns, the slot that it sets, and the link whose entry it sets.
ghost use Rattle.std.specs.Prelude.{◌≡◌};
ghost use Rattle.steps.specs.Verdicts.{plain};

use rules::{NO_LINK, Pair, Parcel, Sight};

// A slot number past the last slot sets nothing, nor does a link past the last entry, and counter 0 raises nothing: `ledger::book` takes any
// number.
#[derive(Clone, Copy)]
pub struct Taken {
    pub value: u64,
    pub counter: u64,
    pub at: usize,
    pub parcel: Parcel,
    pub link: usize,
    pub pair: Pair,
}

// No counter is earned.
const NO_COUNTER: u64 = 0;

// A step that answers a value: no slot, no counter and no link changes.
pub(crate) fn tell(value: u64, seen: Sight) -> Taken
    ensures { result ≡ plain value seen.count }
{
    Taken {
        value,
        counter: NO_COUNTER,
        at: seen.count,
        parcel: Parcel::default(),
        link: NO_LINK,
        pair: Pair::default(),
    }
}
