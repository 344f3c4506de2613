// What joining one table into another comes to, before anything is written: the entries that are needed, the lengths that rise, and the answer.
#![tactic(auto)]

mod answers;
mod counting;
mod passes;

pub use answers::told;
pub use counting::{FEW, Tally, count};
pub use passes::alike;
