// One table joined into another: counted first, then filled from the last place backwards, so that each entry is placed once.
// `merge` takes the entries from a slice of their own, `merge_within` from a table that stands in the same words.
#![tactic(auto)]

mod beside;
mod turns;
mod within;

pub use beside::merge;
pub use within::merge_within;
