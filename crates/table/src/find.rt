// Where an id stands in a sound table.
ghost use Rattle.std.specs.Prelude.{◌≡◌, not, ◌&&◌, ◌+◌, ◌*◌, ◌^◌, ◌≤◌, ◌<◌, leb, eqb, length, MatchOption};
ghost use Rattle.rules.specs.meaning.Table.{SoundTable, held, rank, found_of, length_of, id_at, length_at};
ghost use Rattle.table.specs.Loops.{Span, LengthWord};

// The exponent of a power of two that is within the number and at least half of it.
fn halvings(n: usize) -> usize
    requires { 1 ≤ n }
    ensures upper_bound { result < 64 }
    ensures result_bound { 2 ^ result ≤ n }
    ensures n_bound { n ≤ 2 * 2 ^ result }
{
    if n == 1 { 0 } else { (n - 1).ilog2() as usize }
}

// Whether a place is in use with an id no greater than the one sought.
fn reaches(table: &[u64], i: usize, id: u64) -> bool
    requires { 2 * (i + 1) ≤ length table.now }
    ensures { result ≡ not (eqb (length_at table.now i) 0) && leb (id_at table.now i) id }
{
    (table[2 * i + 1] != 0) & (table[2 * i] <= id)
}

// Where halving ends: each id before the place is below the one sought, each id after it above. At most 12 places are looked at in a table of 2,048.
// The first place leaves a power of two to look through; from there on the test's bit, shifted, is what the place moves by.
// An `if` in the loop would become a jump that is guessed wrongly half of the time.
fn nearest(table: &[u64], id: u64) -> usize
    requires sound_table { SoundTable table.now }
    requires in_bounds { 2 ≤ length table.now }
    ensures { Span table.now (held table.now) id result 1 }
{
    let n = table.len() / 2;
    let steps = halvings(n);
    let mid = n - (1 << steps);
    let mut base = if reaches(table, mid, id) { mid } else { 0 };
    for k in (0..steps).rev() {
        let up = reaches(table, base + (1 << k), id);
        base += (up as usize) << k;
    }
    base
}

// The place where the id stands, or its absence.
pub fn lookup(table: &[u64], id: u64) -> Option<usize>
    requires { SoundTable table.now }
    ensures { result ≡ found_of table.now id }
{
    if table.len() < 2 {
        return None;
    }
    let near = nearest(table, id);
    if (table[2 * near + 1] != 0) & (table[2 * near] == id) {
        Some(near)
    } else {
        None
    }
}

// The place where the id stands or would stand: the number of entries with smaller ids.
pub(crate) fn rank(table: &[u64], id: u64) -> usize
    requires sound_table { SoundTable table.now }
    requires in_bounds { 2 ≤ length table.now }
    ensures value { result ≡ rank table.now id }
    ensures within { result ≤ held table.now }
{
    let near = nearest(table, id);
    let smaller = (table[2 * near + 1] != 0) & (table[2 * near] < id);
    near + (smaller as usize)
}

// The word that holds an id's length, where the id stands.
pub(crate) fn length_word(table: &[u64], id: u64) -> Option<usize>
    requires { SoundTable table.now }
    ensures { MatchOption result (length_of table.now id ≡ 0) (LengthWord table.now id) }
{
    let i = lookup(table, id)?;
    Some(2 * i + 1)
}

// The length that the table has for an id, 0 where it has no entry.
#[tactic(auto, using(crate::proofs::Raising::found))]
pub fn query(table: &[u64], id: u64) -> u64
    requires { SoundTable table.now }
    ensures { result ≡ length_of table.now id }
{
    let Some(i) = lookup(table, id) else {
        return 0;
    };
    table[2 * i + 1]
}
