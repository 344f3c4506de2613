// Whether lent words are a sound table, and what a table counts.
ghost use Rattle.std.specs.Prelude.{◌≡◌, ◌*◌, ◌≤◌, length};
ghost use Rattle.rules.specs.meaning.Lengths.{M};
ghost use Rattle.rules.specs.meaning.Table.{SoundTable, sound, held, shown};
ghost use Rattle.table.specs.Loops.{entries_good, all_zero};

use lengths::listed;
use rules::M;

// A number of entries: those in use where the words are a sound table, and some number where they are not. What is left to look through is halved in each turn.
fn used(words: &[u64]) -> usize
    ensures result_in_bounds { 2 * result ≤ length words.now }
    ensures words_value { SoundTable words.now → held words.now ≡ result }
{
    let mut size = words.len() / 2;
    if size == 0 {
        return 0;
    }
    let mut base = 0;
    while 1 < size {
        let half = size / 2;
        let mid = base + half;
        if words[2 * mid + 1] != 0 {
            base = mid;
        }
        size -= half;
    }
    if words[2 * base + 1] != 0 {
        base + 1
    } else {
        base
    }
}

// Whether the first entries have rising ids and lengths 1 to M. There is no early exit: the loop has no branch to guess.
fn entries_good(words: &[u64], count: usize) -> bool
    requires { 2 * count ≤ length words.now }
    ensures { result ≡ entries_good M words.now count }
{
    if count == 0 {
        return true;
    }
    let mut before = words[0];
    let first = words[1];
    let mut good = (first != 0) & (first <= M);
    for i in 1..count {
        let id = words[2 * i];
        let len = words[2 * i + 1];
        good = good & (before < id) & (len != 0) & (len <= M);
        before = id;
    }
    good
}

// Whether every word from a place on is 0. No early exit here either.
fn all_zero(words: &[u64], from: usize) -> bool
    requires { from ≤ length words.now }
    ensures { result ≡ all_zero words.now from }
{
    let mut any = 0;
    for w in &words[from..] {
        any |= *w;
    }
    any == 0
}

// Whether the words are a sound table. Each word is read once; a wrong number of entries, which words that are no table can give,
// fails at the entries or at the words after them.
pub fn sound(words: &[u64]) -> bool
    ensures { result ≡ sound M words.now }
{
    if words.len() % 2 != 0 {
        return false;
    }
    let count = used(words);
    entries_good(words, count) & all_zero(words, 2 * count)
}

// The number of entries in use.
pub fn held(table: &[u64]) -> usize
    requires { SoundTable table.now }
    ensures { result ≡ held table.now }
{
    used(table)
}

// The number of entries that are listed. An unused place has length 0, which is not.
pub fn shown(table: &[u64]) -> usize
    ensures { result ≡ shown table.now }
{
    let mut count = 0;
    for i in 0..table.len() / 2 {
        if listed(table[2 * i + 1]) {
            count += 1;
        }
    }
    count
}
