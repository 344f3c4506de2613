// One entry of a group, read.
ghost use Rattle.std.specs.Prelude.{◌≡◌, ◌+◌};
ghost use Rattle.groups.specs.Decoding.{Enters, two_at};

use rules::M;

// An entry that stands at a place, and the place behind it.
#[derive(Clone, Copy)]
pub(crate) struct Entry {
    pub(crate) id: u64,
    pub(crate) length: u64,
    pub(crate) behind: usize,
}

// The two numbers of an entry, and the place behind them. They are read in a loop so that one call reads every number of a group: the compiler then puts the
// reader into the loop, and what was read does not go through memory.
#[tactic(auto, using(crate::proofs::Entries::two_turns), unfolding(crate::specs::Decoding::two_at))]
fn read_two(bytes: &[u8], at: usize) -> Option<(u64, u64, usize)>
    ensures { result ≡ two_at bytes.now at }
{
    let mut place = at;
    let mut first = 0;
    let mut second = 0;
    for _ in 0..2usize {
        let (n, behind) = leb::read_leb(bytes, place)?;
        first = second;
        second = n;
        place = behind;
    }
    Some((first, second, place))
}

// The entry at a place, whose id is at least `before` and `step` more: 0 and 0 for the first entry, and 1 above the id before for the others. An id that leaves
// 64 bits is none.
#[tactic(auto, using(crate::proofs::Entries::an_entry_read))]
pub(crate) fn read_entry(bytes: &[u8], at: usize, before: u64, step: u64) -> Option<Entry>
    ensures { Enters bytes.now at (before + step) result }
{
    let (gap, less, behind) = read_two(bytes, at)?;
    if less >= M {
        return None;
    }
    let id = before.checked_add(step)?.checked_add(gap)?;
    Some(Entry {
        id,
        length: less + 1,
        behind,
    })
}
