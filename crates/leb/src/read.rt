// A number, read.
ghost use Rattle.std.specs.Prelude.{◌≡◌, ◌+◌, ◌<◌, ◌≤◌, length};
ghost use Rattle.leb.specs.Places.{leb_at, rest_at};

// The largest scale, that of a tenth byte.
const TOP: u64 = 1 << 63;

// The tenth byte of a number, behind nine that came to a value: it has the bit 63 and no other, so that only a 1 keeps 64 bits and is no padding.
#[tactic(auto, using(crate::proofs::Readings::tenth_bytes))]
fn tenth(bytes: &[u8], at: usize, value: u64) -> Option<(u64, usize)>
    requires { value < TOP }
    ensures { result ≡ rest_at bytes.now at value TOP }
{
    if *bytes.get(at)? == 1 {
        Some((value + TOP, at + 1))
    } else {
        None
    }
}

// The bytes behind the first one, each with a scale 128 times that of the byte before. Each is added before it is asked whether it is the last: so the compiler
// lays the eight turns out one after the other, with a shift by a fixed number in each. A last byte of 0 would be padding.
#[tactic(auto, using(crate::proofs::Readings::turns))]
fn read_on(bytes: &[u8], from: usize, low: u64) -> Option<(u64, usize)>
    requires { (from ≤ length bytes.now) × (low < 128) }
    ensures { result ≡ rest_at bytes.now from low 128 }
{
    let mut value = low;
    let mut scale: u64 = 128;
    for k in 0..8 {
        let b = u64::from(*bytes.get(from + k)?);
        value += b % 128 * scale;
        if b < 128 {
            return (b != 0).then_some((value, from + k + 1));
        }
        scale *= 128;
    }
    tenth(bytes, from + 8, value)
}

// The number that stands at a place, and the place behind it. Most numbers have one byte and end at the first test. Bytes that are cut short, padded
// or past 64 bits are refused.
#[tactic(auto, using(crate::proofs::Readings::first_bytes))]
pub fn read_leb(bytes: &[u8], at: usize) -> Option<(u64, usize)>
    ensures { result ≡ leb_at bytes.now at }
{
    let b = u64::from(*bytes.get(at)?);
    if b < 128 {
        Some((b, at + 1))
    } else {
        read_on(bytes, at + 1, b - 128)
    }
}
