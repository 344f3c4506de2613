// A run: a fresh start, the eight steps and the lag query, over the three things that are lent. What each means is said in `specs/meaning/Runs.antt` of the
// crate `rules`. `lent` is the only module that touches the slots and the ledger; what it stores there is decided by value, in the crates `judge` and
// `steps`.
#![tactic(auto)]

mod lags;
mod lent;

pub use lent::{act, fresh, lag, step, take};
