// One site's table in lent words. What each function means is said in `specs/` of the crate `rules`.
// All but `sound` and `shown` work on a table that the layer above has judged once: they require that it is sound.
#![tactic(auto)]

mod find;
mod judge;
mod raise;

pub use find::{lookup, query};
pub use judge::{held, shown, sound};
pub use raise::{absorb, add, lacks_room, remove};
