// Serials of 32 bits, and their order, which is that of RFC 1982. Everything is read off one number: how far one serial is ahead of another, going
// up and around.
ghost use Rattle.std.specs.Prelude.{◌≡◌};
ghost use Rattle.rules.specs.meaning.Serials.{next_serial, serial_before, is_newer, ahead, is_ordered, lag_of};

// Half of the serials. Two that are this far apart have no order.
const HALF: u32 = 1 << 31;

// The serial after this one.
#[tactic(auto, unfolding(rules::specs::meaning::Serials::next_serial))]
pub(crate) fn next_serial(n: u32) -> u32
    ensures { result ≡ next_serial n }
{
    n.wrapping_add(1)
}

// The serial before this one.
#[tactic(auto, unfolding(rules::specs::meaning::Serials::serial_before))]
pub(crate) fn serial_before(n: u32) -> u32
    ensures { result ≡ serial_before n }
{
    n.wrapping_sub(1)
}

// How many serials a is ahead of b.
#[tactic(auto, unfolding(rules::specs::meaning::Serials::ahead))]
fn ahead_of(a: u32, b: u32) -> u32
    ensures { result ≡ ahead a b }
{
    a.wrapping_sub(b)
}

// Whether a is greater than b: ahead of it, and by less than half.
#[tactic(auto, using(rules::proofs::laws::Serials::newer_ahead))]
pub(crate) fn is_newer(a: u32, b: u32) -> bool
    ensures { result ≡ is_newer a b }
{
    let up = ahead_of(a, b);
    0 < up && up < HALF
}

// Whether two serials have an order, or are the same.
#[tactic(auto, unfolding(rules::specs::meaning::Serials::is_ordered))]
pub(crate) fn is_ordered(a: u32, b: u32) -> bool
    ensures { result ≡ is_ordered a b }
{
    ahead_of(a, b) != HALF
}

// The newest heard minus the last sent, as a signed number. From half on it is below 0, by one more than what is left up to the largest serial.
// Half itself, which has no order, is the least number of all, so nothing is asked of the two.
#[tactic(auto, unfolding(rules::specs::meaning::Serials::lag_of))]
pub(crate) fn lag(heard: u32, last: u32) -> i32
    ensures { result ≡ lag_of heard last }
{
    ahead_of(heard, last).cast_signed()
}
