// Decimal numbers in a line.
ghost use Rattle.std.specs.Prelude.{◌≡◌, ◌+◌, ◌≤◌, length};
ghost use Rattle.rules.specs.meaning.Number.{most_digits, digits};
ghost use Rattle.rules.specs.meaning.Places.{number_at};
ghost use Rattle.rules.specs.meaning.Put.{put};

// How many digits a number that is read may have, zeros in front among them; the largest number has as many.
const MOST_DIGITS: usize = 20;

// The number that stands at a place of a line, and the place behind it: up to 20 digits, zeros in front among them. A value that leaves 64 bits is refused
// at the digit that does it. The digits are counted as they are read, so that they are passed over once.
pub(crate) fn read_number(line: &[u8], place: usize) -> Option<(u64, usize)>
    requires { place ≤ length line.now }
    ensures { result ≡ number_at line.now place }
{
    let mut v: u64 = 0;
    let mut count = 0;
    for c in &line[place..] {
        if !c.is_ascii_digit() {
            break;
        }
        v = v.checked_mul(10)?.checked_add((c - b'0') as u64)?;
        count += 1;
    }
    (1..=MOST_DIGITS)
        .contains(&count)
        .then_some((v, place + count))
}

// How many digits a number has. Four go with each division, as a division costs more than a comparison; a single digit, the common case of a
// site, costs one comparison. What is left of the number ends the loop, not a count.
#[tactic(auto, using(crate::proofs::Counts::counted))]
pub fn places(n: u64) -> usize
    ensures { (result ≡ length (digits n)) × (result ≤ most_digits) }
{
    if n < 10 {
        return 1;
    }
    let mut k: usize = 1;
    let mut rest = n;
    while rest >= 10000 {
        rest /= 10000;
        k += 4;
    }
    match rest {
        0..=9 => k,
        10..=99 => k + 1,
        100..=999 => k + 2,
        _ => k + 3,
    }
}

// Writes a number at a place, from its last digit to its first and two digits with each division, and answers the place behind it. What is left
// of the number ends the loop here too.
#[tactic(auto, using(crate::proofs::Counts::spelled))]
pub fn write_number(out: &mut [u8], place: usize, n: u64) -> usize
    requires { place + length (digits n) ≤ length out.old }
    ensures { (result ≡ place + length (digits n)) × (out.new ≡ put out.old place (digits n)) }
{
    let end = place + places(n);
    let mut i = end;
    let mut rest = n;
    while rest >= 100 {
        out[i - 1] = b'0' + (rest % 10) as u8;
        out[i - 2] = b'0' + (rest % 100 / 10) as u8;
        i -= 2;
        rest /= 100;
    }
    if rest < 10 {
        out[i - 1] = b'0' + rest as u8;
        return end;
    }
    out[i - 1] = b'0' + (rest % 10) as u8;
    out[i - 2] = b'0' + (rest / 10) as u8;
    end
}
