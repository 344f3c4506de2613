// One entry, by value: whether it is sound, what a send and a delivery make of it, and what the lag query asks of it.
ghost use Rattle.std.specs.Prelude.{◌≡◌};
ghost use Rattle.rules.specs.meaning.Serials.{lag_of};
ghost use Rattle.rules.specs.meaning.Links.{pair_sound, start_pair, sent_pair, moves_on, heard_pair, incomparable};
ghost use Rattle.rules.specs.meaning.Lags.{silent, last_sent, lag_undefined};

use crate::serial::{is_newer, is_ordered, lag, next_serial, serial_before};
use rules::Pair;

// The newest heard is 0 while its mark stands. The judge asks it of every link, so there is no early exit.
#[tactic(auto, unfolding(rules::specs::meaning::Links::pair_sound))]
pub fn pair_sound(pair: Pair) -> bool
    ensures { result ≡ pair_sound pair }
{
    (pair.unheard == 0) | (pair.heard == 0)
}

// Nothing sent and nothing heard.
pub fn start_pair(first: u32) -> Pair
    ensures { result ≡ start_pair first }
{
    Pair {
        next: first,
        heard: 0,
        unsent: 1,
        unheard: 1,
    }
}

// After a send: its serial has gone out, so the one after it is the next.
pub fn sent_pair(pair: Pair) -> Pair
    ensures { result ≡ sent_pair pair }
{
    Pair {
        next: next_serial(pair.next),
        unsent: 0,
        ..pair
    }
}

// Whether a serial that arrives becomes the newest heard. The first one does, whatever its number.
#[tactic(auto, unfolding(rules::specs::meaning::Links::moves_on))]
fn moves_on(serial: u32, pair: Pair) -> bool
    ensures { result ≡ moves_on serial pair }
{
    pair.unheard != 0 || is_newer(serial, pair.heard)
}

// After a delivery: a serial that is not newer leaves the entry as it is.
#[tactic(auto, unfolding(rules::specs::meaning::Links::heard_pair))]
pub fn heard_pair(serial: u32, pair: Pair) -> Pair
    ensures { result ≡ heard_pair serial pair }
{
    if moves_on(serial, pair) {
        Pair {
            heard: serial,
            unheard: 0,
            ..pair
        }
    } else {
        pair
    }
}

// Whether a serial that arrives has no order with the newest heard. Where nothing was heard there is nothing to compare it with.
#[tactic(auto, unfolding(rules::specs::meaning::Links::incomparable))]
pub fn incomparable(serial: u32, pair: Pair) -> bool
    ensures { result ≡ incomparable serial pair }
{
    pair.unheard == 0 && !is_ordered(serial, pair.heard)
}

// Whether a lag is asked of a link on which nothing was sent or nothing was heard.
#[tactic(auto, unfolding(rules::specs::meaning::Lags::silent))]
pub(crate) fn silent(pair: Pair) -> bool
    ensures { result ≡ silent pair }
{
    pair.unsent != 0 || pair.unheard != 0
}

// Whether the newest heard and the last sent have no order, so that there is no lag.
#[tactic(auto, unfolding(rules::specs::meaning::Lags::lag_undefined))]
pub(crate) fn lag_undefined(pair: Pair) -> bool
    ensures { result ≡ lag_undefined pair }
{
    !is_ordered(pair.heard, serial_before(pair.next))
}

// The newest heard minus the last sent. It is a number for every entry; only whoever asks knows whether it means something.
pub fn lag_of(pair: Pair) -> i32
    ensures { result ≡ lag_of pair.heard (last_sent pair) }
{
    lag(pair.heard, serial_before(pair.next))
}
