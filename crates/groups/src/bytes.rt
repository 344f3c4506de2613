// The group of some bytes, in one pass that judges and decodes. The entries go into lent words, from the first on, turn by turn: where the bytes turn out to form
// no group, what those words then have is of no use to anybody. So they are not the caller's.
ghost use Rattle.std.specs.Prelude.{◌*◌, ◌≤◌, length, drop};
ghost use Rattle.rules.specs.meaning.Groups.{most_entries, entries_from, group_of};
ghost use Rattle.groups.specs.Decoding.{Decodes};

use crate::entry::read_entry;
use rules::GROUP_ENTRIES;

// So many entries, where they stand from a place on and no byte behind them.
#[tactic(auto, using(crate::proofs::Fillings::fillings))]
fn lay_entries(bytes: &[u8], at: usize, count: usize, words: &mut [u64]) -> Option<usize>
    requires { (at ≤ length bytes.now) × (count ≤ most_entries) × (2 * most_entries ≤ length words.old) }
    ensures { Decodes (entries_from count 0 (drop at bytes.now)) result words.new }
{
    let mut place = at;
    let mut before = 0;
    let mut step = 0;
    for k in 0..count {
        let entry = read_entry(bytes, place, before, step)?;
        words[2 * k] = entry.id;
        words[2 * k + 1] = entry.length;
        place = entry.behind;
        before = entry.id;
        step = 1;
    }
    if place < bytes.len() {
        None
    } else {
        Some(count)
    }
}

// How many entries the group that bytes form has, if they form one: "bytes left over" are no group, nor is a count above 64. Every count up to 64 is its own one
// byte, and no number that begins with a larger byte is below 65.
#[tactic(auto, using(crate::proofs::Groupings::groupings))]
pub(crate) fn decode(bytes: &[u8], words: &mut [u64]) -> Option<usize>
    requires { 2 * most_entries ≤ length words.old }
    ensures { Decodes (group_of bytes.now) result words.new }
{
    let count = usize::from(*bytes.get(0)?);
    if GROUP_ENTRIES < count {
        None
    } else {
        lay_entries(bytes, 1, count, words)
    }
}
