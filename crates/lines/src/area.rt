// A line read into an area of bytes, for a caller in C.
ghost use Rattle.std.specs.Prelude.{◌≡◌, ◌+◌, ◌≤◌, length};
ghost use Rattle.rules.specs.meaning.Area.{word, read_refusal, area_after};
ghost use Rattle.rules.specs.meaning.Put.{put};
ghost use Rattle.rules.specs.meaning.Refusals.{number_in};

use crate::read::read_line;
use rules::Refusal;

// How many bytes the four numbers take.
const AREA_BYTES: usize = 32;

// Writes a number in eight bytes at a place, the lowest first.
fn write_word(out: &mut [u8], place: usize, n: u64)
    requires { place + 8 ≤ length out.old }
    ensures { out.new ≡ put out.old place (word n) }
{
    out[place..place + 8].copy_from_slice(&n.to_le_bytes());
}

// "four little-endian 64-bit numbers in the first 32 bytes"; or the refusal where the area is shorter, or where the text is no step line: then the area is
// untouched.
pub fn read_into(line: &[u8], area: &mut [u8]) -> Result<(), Refusal>
    ensures { (number_in result ≡ read_refusal line.now area.old) × (area.new ≡ area_after line.now area.old) }
{
    if area.len() < AREA_BYTES {
        return Err(Refusal::ShortBuffer);
    }
    let numbers = read_line(line).ok_or(Refusal::NoStep)?;
    write_word(area, 0, numbers.kind);
    write_word(area, 8, numbers.first);
    write_word(area, 16, numbers.second);
    write_word(area, 24, numbers.id);
    Ok(())
}
