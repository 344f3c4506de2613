// Step lines, read from and written to byte slices. What a line is, and what each function means, is said in `specs/` of the crate `rules`.
// Reading is one pass: only the two bytes that tell a line's kind are looked at before.
#![tactic(auto)]

mod area;
mod field;
mod kind;
mod number;
mod read;
mod step;
mod text;
mod write;

pub use area::read_into;
pub use number::{places, write_number};
pub use read::read_line;
pub use step::{read_step, step_for};
pub use text::write_text;
pub use write::{check_line, fill, write_line};
