// Entries of two tables side by side into words of their own: each id once, with the larger of its two lengths.
ghost use Rattle.std.specs.Prelude.{◌≡◌, ◌+◌, ◌*◌, ◌/◌, ◌≤◌, ◌<◌, ◌++◌, length as size, take, set};
ghost use Rattle.rounds.specs.Unions.{Joins, Laid, Whole, Ended};

use crate::hand::copy;
use lengths::join;

// How far the walk has come: the entries passed of the one and of the other, and those that are laid.
#[derive(Clone, Copy, Default)]
struct Passed {
    one: usize,
    other: usize,
    laid: usize,
}

// An entry is laid at a place. `merging` has its like: two stores are not worth a public function.
fn lay(out: &mut [u64], place: usize, id: u64, length: u64)
    requires { 2 * place + 2 ≤ size out.old }
    ensures { out.new ≡ set (set out.old (2 * place) id) (2 * place + 1) length }
{
    out[2 * place] = id;
    out[2 * place + 1] = length;
}

// One turn: the entry with the smaller id is laid, and of a common id the larger length.
fn turn(one: &[u64], other: &[u64], out: &mut [u64], at: Passed) -> Passed
    requires laid { Laid one.now other.now out.old at.one at.other at.laid }
    requires one_bound { (2 * at.one + 2 ≤ size one.now) × (2 * at.other + 2 ≤ size other.now) × (2 * at.laid + 2 ≤ size out.old) }
    ensures laid_2 { Laid one.now other.now out.new result.one result.other result.laid }
    ensures laid_value { result.laid ≡ at.laid + 1 }
{
    let mine = one[2 * at.one];
    let kept = one[2 * at.one + 1];
    let id = other[2 * at.other];
    let length = other[2 * at.other + 1];
    if mine < id {
        lay(out, at.laid, mine, kept);
        return Passed {
            one: at.one + 1,
            laid: at.laid + 1,
            ..at
        };
    }
    if id < mine {
        lay(out, at.laid, id, length);
        return Passed {
            other: at.other + 1,
            laid: at.laid + 1,
            ..at
        };
    }
    lay(out, at.laid, id, join(kept, length));
    Passed {
        one: at.one + 1,
        other: at.other + 1,
        laid: at.laid + 1,
    }
}

// Turn by turn until either has no entry left, or no place is. Which of the two goes on is not known before a turn.
fn walk(one: &[u64], other: &[u64], out: &mut [u64]) -> Passed
    requires { Whole (size one.now) × Whole (size other.now) × Whole (size out.old) }
    ensures laid { Laid one.now other.now out.new result.one result.other result.laid }
    ensures ended { Ended (size one.now / 2) (size other.now / 2) (size out.new / 2) result.one result.other result.laid }
{
    let ones = one.len() / 2;
    let others = other.len() / 2;
    let places = out.len() / 2;
    let mut at = Passed::default();
    while (at.one < ones) & (at.other < others) & (at.laid < places) {
        at = turn(one, other, out, at);
    }
    at
}

// The rest of either stands behind what is laid.
fn append(out: &mut [u64], at: usize, rest: &[u64])
    requires rest_bound { at + size rest.now ≤ size out.old }
    requires out_bound { size out.old ≤ 4096 }
    ensures { take (at + size rest.now) out.new ≡ take at out.old ++ rest.now }
{
    copy(&mut out[at..at + rest.len()], rest);
}

// All entries of both, and how many they are; or none, where there are not places for all of them.
pub(crate) fn unite(one: &[u64], other: &[u64], out: &mut [u64]) -> Option<usize>
    requires whole { Whole (size one.now) × Whole (size other.now) × Whole (size out.old) }
    requires one_bound { (size one.now ≤ 4096) × (size other.now ≤ 4096) × (size out.old ≤ 4096) }
    ensures { Joins (size out.old) result one.now other.now out.new }
{
    let at = walk(one, other, out);
    let places = out.len() / 2;
    let ones = one.len() / 2 - at.one;
    let others = other.len() / 2 - at.other;
    if places - at.laid < ones + others {
        return None;
    }
    append(out, 2 * at.laid, &one[2 * at.one..]);
    append(out, 2 * at.laid + 2 * ones, &other[2 * at.other..]);
    Some(at.laid + ones + others)
}
