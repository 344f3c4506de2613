// One repair round for a run: an operation that is no step, over the three things that are lent. What it means is said in `specs/meaning/Rounds.antt` of the
// crate `rules`. It writes the words and nothing else, so the slots and the ledger are lent to be read.
#![tactic(auto)]

mod even;
mod hand;
mod lent;
mod level;
mod seen;
mod tables;
mod union;

pub use lent::repair;
