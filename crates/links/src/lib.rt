// The links of a run, by value: where the entry of one is, in which order a loop goes over them, what a send and a delivery make of an entry,
// and the serials of 32 bits in it. What each means is said in `specs/` of the crate `rules`.
#![tactic(auto)]

mod lags;
mod pairs;
mod places;
mod serial;
mod turns;

pub use lags::lag_refusal;
pub use pairs::{heard_pair, incomparable, lag_of, pair_sound, sent_pair, start_pair};
pub use places::{link_between, sites_of, sites_to_start};
pub use turns::{Link, Links, first_link, links_of, next_link};
