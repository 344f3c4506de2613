// The further numbers of a line, each behind its name, which has four bytes. A kind uses such a number or does not.
ghost use Rattle.std.specs.Prelude.{◌≡◌, cond, ◌+◌, ◌≤◌, length};
ghost use Rattle.rules.specs.meaning.Number.{digits};
ghost use Rattle.rules.specs.meaning.Lines.{field};
ghost use Rattle.rules.specs.meaning.Places.{field_at};
ghost use Rattle.rules.specs.meaning.Put.{put};

use crate::number::{places, read_number, write_number};
use crate::text::{read_text, write_text};

// The number behind its name, and the place behind it. One that is not used is 0 and takes no byte.
pub(crate) fn read_field(used: bool, name: &[u8], line: &[u8], place: usize) -> Option<(u64, usize)>
    requires { place ≤ length line.now }
    ensures { result ≡ field_at used name.now line.now place }
{
    if !used {
        return Some((0, place));
    }
    let next = read_text(line, place, name)?;
    read_number(line, next)
}

// How many bytes the number takes with its name.
pub(crate) fn field_len(used: bool, n: u64) -> usize
    ensures { (result ≡ cond used (4 + length (digits n)) 0) × (result ≤ 24) }
{
    if used { 4 + places(n) } else { 0 }
}

// Writes the number behind its name at a place, and answers the place behind it.
#[tactic(auto, using(crate::proofs::Fields::fields))]
pub(crate) fn write_field(out: &mut [u8], place: usize, used: bool, name: &[u8], n: u64) -> usize
    requires { place + length (field used name.now n) ≤ length out.old }
    ensures { (result ≡ place + length (field used name.now n)) × (out.new ≡ put out.old place (field used name.now n)) }
{
    if !used {
        return place;
    }
    let next = write_text(out, place, name);
    write_number(out, next, n)
}
