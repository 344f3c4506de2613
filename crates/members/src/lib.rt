// Bulk membership: which of many ids a table lists, one bit to an id. What it means is said in `specs/meaning/Members.antt` of the crate `rules`.
// `one` looks an id up; `bytes` packs answers and looks nothing up itself.
#![tactic(auto)]

mod asked;
mod bytes;
mod judge;
mod one;

pub use asked::members;
