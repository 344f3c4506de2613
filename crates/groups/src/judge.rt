// Whether words form a group.
ghost use Rattle.std.specs.Prelude.{◌≡◌, ◌≤◌, ◌%◌, length};
ghost use Rattle.rules.specs.meaning.Groups.{is_group, rising_from};

use rules::{GROUP_WORDS, M};

// Whether the ids of some entries rise and their lengths are 1 to M. There is no early exit: the loop has no branch to guess.
fn rising(entries: &[u64]) -> bool
    requires { (2 ≤ length entries.now) × (length entries.now % 2 ≡ 0) }
    ensures { result ≡ rising_from 0 entries.now }
{
    let (pairs, _) = entries.as_chunks::<2>();
    let mut before = entries[0];
    let first = entries[1];
    let mut ok = (first != 0) & (first <= M);
    for &[id, length] in &pairs[1..] {
        ok = ok & (before < id) & (length != 0) & (length <= M);
        before = id;
    }
    ok
}

// Whether words form a group: "0 to 64 entries", whole ones, "ids strictly rising", lengths 1 to M.
#[tactic(auto, using(crate::proofs::Judgings::judgings))]
pub(crate) fn is_group(entries: &[u64]) -> bool
    ensures { result ≡ is_group entries.now }
{
    if GROUP_WORDS < entries.len() || entries.len() % 2 != 0 {
        false
    } else {
        entries.is_empty() || rising(entries)
    }
}
