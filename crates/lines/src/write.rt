// A whole line, written. Its four numbers come one by one, as C gives them.
ghost use Rattle.std.specs.Prelude.{◌≡◌, ◌≤◌, length};
ghost use Rattle.rules.specs.meaning.Lines.{text_of};
ghost use Rattle.rules.specs.meaning.Put.{put};
ghost use Rattle.rules.specs.meaning.Refusals.{number_in};
ghost use Rattle.rules.specs.meaning.Writing.{check_of, text_for, Filled};

use crate::field::{field_len, write_field};
use crate::kind::{has_id, has_second, lead, write_lead};
use crate::number::{places, write_number};
use crate::step::names_step;
use rules::Refusal;

// How many bytes the line of a step has.
#[tactic(auto, using(crate::proofs::Writings::lengths))]
fn line_len(kind: u64, first: u64, second: u64, id: u64) -> usize
    ensures { result ≡ length (text_of kind first second id) }
{
    lead(kind).len()
        + places(first)
        + field_len(has_second(kind), second)
        + field_len(has_id(kind), id)
}

// Whether four numbers can be written into a room of so many bytes, or the refusal: they name no step, or their line is longer.
#[tactic(auto, unfolding(rules::specs::meaning::Writing::check_of, rules::specs::meaning::Refusals::first_given))]
pub fn check_line(kind: u64, first: u64, second: u64, id: u64, room: usize) -> Result<(), Refusal>
    ensures { number_in result ≡ check_of kind first second id room }
{
    if !names_step(kind, second, id) {
        return Err(Refusal::NoStep);
    }
    if room < line_len(kind, first, second, id) {
        return Err(Refusal::ShortBuffer);
    }
    Ok(())
}

// Writes a line at the front of a buffer that has room for it, and answers how many bytes it has.
#[tactic(auto, using(crate::proofs::Writings::lengths))]
fn lay(kind: u64, first: u64, second: u64, id: u64, out: &mut [u8]) -> usize
    requires { length (text_of kind first second id) ≤ length out.old }
    ensures { (result ≡ length (text_of kind first second id)) × (out.new ≡ put out.old 0 (text_of kind first second id)) }
{
    let a = write_lead(out, kind);
    let b = write_number(out, a, first);
    let d = write_field(out, b, has_second(kind), b" to=", second);
    write_field(out, d, has_id(kind), b" id=", id)
}

// Writes the line of four numbers at the front of a buffer, and answers how many bytes it has; 0, and nothing written, where `check_line`
// refuses them. Every byte behind the line is as it was.
pub fn fill(kind: u64, first: u64, second: u64, id: u64, out: &mut [u8]) -> usize
    ensures { Filled kind first second id out.old out.new result }
{
    match check_line(kind, first, second, id, out.len()) {
        Ok(()) => lay(kind, first, second, id, out),
        Err(_) => 0,
    }
}

// "returns the front part of the caller's buffer that it filled": an empty part where the numbers are refused. What the rest of the buffer
// holds is said by `fill`, as the part is all that is left to speak of here.
pub fn write_line(kind: u64, first: u64, second: u64, id: u64, out: &mut [u8]) -> &mut [u8]
    ensures { (result.now ≡ text_for kind first second id (length out.old)) × (result.ref_ptr ≡ out.entry.ref_ptr) }
{
    let n = fill(kind, first, second, id, out);
    &mut out[..n]
}
