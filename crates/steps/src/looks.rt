// What a step looks at besides the words: which slot, whether it wants a free one, and which link.
ghost use Rattle.std.specs.Prelude.{◌≡◌};
ghost use Rattle.rules.specs.meaning.Kinds.{slot_of, link_of, takes_slot};

use links::link_between;
use rules::{NO_LINK, Parcel, Step};

// The slot that a step names. A step that names none reads slot 0, and makes nothing of it.
#[tactic(auto, unfolding(rules::specs::meaning::Kinds::slot_of, rules::specs::meaning::Kinds::numbers))]
pub fn slot_of(step: Step) -> usize
    ensures { result ≡ slot_of step }
{
    match step {
        Step::Deliver { slot } | Step::Again { slot } | Step::Lose { slot } => slot as usize,
        _ => 0,
    }
}

// Whether a step puts a new parcel into the lowest free slot. For any other the slots need no search.
#[tactic(auto, unfolding(rules::specs::meaning::Kinds::numbers))]
pub fn needs_slot(step: Step) -> bool
    ensures { result ≡ takes_slot step }
{
    matches!(step, Step::Send { .. } | Step::Again { .. })
}

// The link that a step names, whose entry it is to see: a send's by its two sites, a delivery's by the parcel in its slot.
#[tactic(auto, unfolding(rules::specs::meaning::Kinds::link_of, rules::specs::meaning::Kinds::numbers))]
pub fn link_of(step: Step, held: Parcel, sites: u64) -> usize
    ensures { result ≡ link_of sites held step }
{
    match step {
        Step::Send { from, to, .. } => link_between(sites, from, to),
        Step::Deliver { .. } => link_between(sites, held.sender as u64, held.site),
        _ => NO_LINK,
    }
}
