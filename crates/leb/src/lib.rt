// Unsigned LEB128 numbers of 64 bits in byte slices, in the shortest form alone. What they are is said in `specs/meaning/Leb.antt` of the crate
// `rules`; `specs/Places.antt` says it of places in a slice.
#![tactic(auto)]

mod read;
mod write;

pub use read::read_leb;
pub use write::{width, write_leb};
