// Groups absorbed at a site of a run: an operation that is no step, over the three things that are lent. What it means is said in
// `specs/meaning/Events.antt` of the crate `rules`. It writes the words of one site and nothing else, so the slots and the ledger are lent to be read.
#![tactic(auto)]

mod lent;
mod seen;

pub use lent::absorb;
