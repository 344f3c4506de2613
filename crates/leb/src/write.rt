// A number, measured and written.
ghost use Rattle.std.specs.Prelude.{◌≡◌, ◌+◌, ◌≤◌, length};
ghost use Rattle.rules.specs.meaning.Leb.{leb128};
ghost use Rattle.rules.specs.meaning.Put.{put};

// How many bytes a number takes: one where it has seven bits, as most have, and else by its highest bit. A loop over the bytes would have a branch that is
// guessed wrongly where sizes are mixed.
#[tactic(auto, using(crate::proofs::Writings::one_byte, crate::proofs::Writings::width_law))]
pub fn width(n: u64) -> usize
    ensures { (result ≡ length (leb128 n)) × (result ≤ 10) }
{
    if n < 128 {
        1
    } else {
        ((70 - n.leading_zeros()) / 7) as usize
    }
}

// Writes a number at a place, "the lowest first", and answers the place behind it. What is left of the number ends the loop, not a count of bytes.
#[tactic(auto, using(crate::proofs::Writings::turns))]
pub fn write_leb(out: &mut [u8], place: usize, n: u64) -> usize
    requires { place + length (leb128 n) ≤ length out.old }
    ensures { (result ≡ place + length (leb128 n)) × (out.new ≡ put out.old place (leb128 n)) }
{
    let mut i = place;
    let mut rest = n;
    while rest >= 128 {
        out[i] = 128 + (rest % 128) as u8;
        rest /= 128;
        i += 1;
    }
    out[i] = rest as u8;
    i + 1
}
