// Fixed pieces of text in a line.
ghost use Rattle.std.specs.Prelude.{◌≡◌, ℕ, ◌+◌, ◌≤◌, length, option_map};
ghost use Rattle.rules.specs.meaning.Places.{text_at};
ghost use Rattle.rules.specs.meaning.Put.{put};

// The place behind a piece of text, where the piece stands at a place of the line.
pub(crate) fn read_text(line: &[u8], place: usize, text: &[u8]) -> Option<usize>
    requires { place ≤ length line.now }
    ensures { option_map (λ (next : ℕ). (0, next)) result ≡ text_at line.now place text.now }
{
    line[place..]
        .starts_with(text)
        .then_some(place + text.len())
}

// Writes a piece of text at a place, and answers the place behind it. A loop: `copy_from_slice` calls memcpy, which was slower at the few bytes
// of a name.
pub fn write_text(out: &mut [u8], place: usize, text: &[u8]) -> usize
    requires { place + length text.now ≤ length out.old }
    ensures { (result ≡ place + length text.now) × (out.new ≡ put out.old place text.now) }
{
    for (j, byte) in text.iter().enumerate() {
        out[place + j] = *byte;
    }
    place + text.len()
}
