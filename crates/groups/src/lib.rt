// Groups: up to 64 entries as one string of bytes, written and read. What a group is, and what its bytes are, is said in `specs/meaning/Groups.antt` of
// the crate `rules`. Entries are words, id then length, as in a table. Nothing is written on a refusal: entries are judged before a byte of them is
// written, and bytes are decoded beside what is lent.
#![tactic(auto)]

mod bytes;
mod entry;
mod judge;
mod read;
mod write;

pub use read::read_group;
pub use write::write_group;
