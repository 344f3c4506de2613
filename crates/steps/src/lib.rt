// What each of the eight steps comes to in a run that is judged, as a verdict: its answer, and what it changes. The words are changed where they are lent;
// the slots and the ledger are seen and changed by others, by value here. What a step means is said in `specs/meaning/Steps.antt` of the crate `rules`.
#![tactic(auto)]

mod deciding;
mod deliver;
mod looks;
mod low;
mod merges;
mod one;
mod places;
mod posts;
mod verdict;

pub use deciding::{decide, resolve};
pub use looks::{link_of, needs_slot, slot_of};
pub use low::low_after;
pub use places::part_of;
pub use verdict::Taken;
