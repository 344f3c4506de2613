// The text of a report from the text of steps. What a report is, is said in `specs/meaning/Reports.antt` of the crate `rules`.
#![tactic(auto)]

mod ahead;
mod ends;
mod pass;
mod pieces;
mod said;

ghost use Rattle.std.specs.Prelude.{◌≤◌, ◌≡◌, length, replicate, ltb};
ghost use Rattle.rules.specs.meaning.Reports.{input_limit, report_of, as_reported, Told, Printed};

use crate::pass::say_report;
use lines::write_text;
use rules::{INPUT_MAX, REPORT_MAX, ROOM_BESIDES, ROOM_BY_BYTE, Refusal};

// How long the report is: said into an empty buffer it is written nowhere.
fn measured(input: &[u8]) -> usize
    requires { length input.now ≤ input_limit }
    ensures { result ≡ length (report_of input.now) }
{
    say_report(input, &mut [])
}

// Whether so much room is too little for the report. Room that every report of so long an input fits is enough, and nothing is measured then.
fn too_short(input: &[u8], room: usize) -> bool
    requires { length input.now ≤ input_limit }
    ensures { result ≡ ltb room (length (report_of input.now)) }
{
    room < ROOM_BY_BYTE * input.len() + ROOM_BESIDES && room < measured(input)
}

// The report of an input at the front of the buffer. Refused with 12 where the input is over 32,768 bytes, then with 13 where the buffer has not the
// room for it; on either nothing is written.
pub fn report(input: &[u8], out: &mut [u8]) -> Result<usize, Refusal>
    ensures { Told input.now out.old (as_reported result) out.new }
{
    if input.len() > INPUT_MAX {
        return Err(Refusal::InputLong);
    }
    if too_short(input, out.len()) {
        return Err(Refusal::ShortBuffer);
    }
    Ok(say_report(input, out))
}

// What the program prints: the report, or "only `refused=12`". A buffer without room for the largest report is left as it is, and the answer is 0.
pub fn printed(input: &[u8], out: &mut [u8]) -> usize
    ensures { Printed input.now out.old result out.new }
{
    if out.len() < REPORT_MAX {
        return 0;
    }
    if INPUT_MAX < input.len() {
        return write_text(out, 0, b"refused=12\n");
    }
    say_report(input, out)
}

// A buffer that what is printed always fits.
pub fn largest_room() -> [u8; REPORT_MAX]
    ensures { result ≡ replicate 721152 0 }
{
    [0; REPORT_MAX]
}
