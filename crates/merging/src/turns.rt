// One turn of the filling walk: the next entry of the merged table from the back.
ghost use Rattle.std.specs.Prelude.{◌≡◌, ℕ, ◌+◌, ◌*◌, ◌-◌, ◌≤◌, ◌<◌, max, List, true, cond, length as size, get_or, set};
ghost use Rattle.rules.specs.meaning.Table.{id_at, length_at};
ghost use Rattle.merging.specs.Walks.{Joining};

use lengths::join;
use tally::Tally;

// What is left to place: entries of the table, entries of the source, and the place from which on the merged table stands.
#[derive(Clone, Copy)]
pub(crate) struct Left {
    pub own: usize,
    pub others: usize,
    pub place: usize,
}

impl From<Tally> for Left {
    ghost from_gives = { λ comes left. (left.own ≡ comes.own) × (left.others ≡ comes.others) × (left.place ≡ comes.held) };

    fn from(comes: Tally) -> Left {
        Left {
            own: comes.own,
            others: comes.others,
            place: comes.held,
        }
    }
}

impl Left {
    // One more entry is placed, which takes so many of the table and of the source.
    pub fn less(self, own: usize, others: usize) -> Left
        requires { (own ≤ self.own) × (others ≤ self.others) × (1 ≤ self.place) }
        ensures { (result.own ≡ self.own - own) × (result.others ≡ self.others - others) × (result.place ≡ self.place - 1) }
    {
        Left {
            own: self.own - own,
            others: self.others - others,
            place: self.place - 1,
        }
    }
}

// One turn by value: the entry that is placed, how many entries of the table and of the source that takes, and the last ids that are left then.
#[derive(Clone, Copy)]
pub(crate) struct Settled {
    pub id: u64,
    pub length: u64,
    pub own: usize,
    pub others: usize,
    pub mine: u64,
    pub last: u64,
}

// One of two numbers, without a jump.
fn pick(test: bool, one: u64, other: u64) -> u64
    ensures { result ≡ cond test one other }
{
    if test { one } else { other }
}

// The larger id is placed; of a common one the larger length. As in `pass`, no branch depends on which it is. The last id is kept, not replaced, by its test: the
// other way round the compiler for x86-64 made a jump of it.
pub(crate) fn settle(mine: u64, under: u64, kept: u64, id: u64, next: u64, length: u64) -> Settled
    ensures id_value { id < mine → (result.id ≡ mine) × (result.length ≡ kept) × (result.own ≡ 1) × (result.others ≡ 0) × (result.mine ≡ under) × (result.last ≡ id) }
    ensures id_value_2 { mine ≡ id → (result.id ≡ id) × (result.length ≡ max kept length) × (result.own ≡ 1) × (result.others ≡ 1) × (result.mine ≡ under) × (result.last ≡ next) }
    ensures id_value_3 { mine < id → (result.id ≡ id) × (result.length ≡ length) × (result.own ≡ 0) × (result.others ≡ 1) × (result.mine ≡ mine) × (result.last ≡ next) }
    ensures own_bound { (result.own ≤ 1) × (result.others ≤ 1) }
{
    let on = id <= mine;
    let other_on = mine <= id;
    let most = join(kept, length);
    let one = pick(on, kept, length);
    Settled {
        id: pick(on, mine, id),
        length: pick(on & other_on, most, one),
        own: usize::from(on),
        others: usize::from(other_on),
        mine: pick(on, under, mine),
        last: pick(id < mine, id, next),
    }
}

// One entry is put at a word and the one after it. `rounds` has its like: two stores are not worth a public function.
pub(crate) fn put(words: &mut [u64], at: usize, id: u64, length: u64)
    requires { at + 2 ≤ size words.old }
    ensures { words.new ≡ set (set words.old at id) (at + 1) length }
{
    words[at] = id;
    words[at + 1] = length;
}

// One turn, with the last entry that is left of the source. Its clause is for any two tables: no argument says which, and `one` lends a part of its words.
pub(crate) fn turn(table: &mut [u64], left: Left, id: u64, length: u64) -> Left
    requires { (1 ≤ left.others) × (1 ≤ left.place) × (left.own ≤ left.place) × (2 * left.place ≤ size table.old) }
    ensures by_index { (t s : List ℕ) → Joining t s (λ q. get_or table.old q 0) left.own left.others left.place → id ≡ id_at s (left.others - 1) → length ≡ length_at s (left.others - 1) → Joining t s (λ q. get_or table.new q 0) result.own result.others result.place }
    ensures place_lt_place { (result.place < left.place) × (size table.new ≡ size table.old) }
{
    let place = left.place - 1;
    if left.own == 0 {
        put(table, 2 * place, id, length);
        return left.less(0, 1);
    }
    let mine = table[2 * left.own - 2];
    let kept = table[2 * left.own - 1];
    let now = settle(mine, 0, kept, id, 0, length);
    put(table, 2 * place, now.id, now.length);
    left.less(now.own, now.others)
}

// All entries of the table that are above the last id that is left of the source move on, one after the other: an id ends the loop, not a count.
pub(crate) fn slide(table: &mut [u64], left: Left, id: u64) -> Left
    requires { (1 ≤ left.others) × (left.own ≤ left.place) × (2 * left.place ≤ size table.old) }
    ensures by_index { (t s : List ℕ) → Joining t s (λ q. get_or table.old q 0) left.own left.others left.place → id ≡ id_at s (left.others - 1) → Joining t s (λ q. get_or table.new q 0) result.own result.others result.place }
    ensures others_value { (result.others ≡ left.others) × (result.place ≤ left.place) × (size table.new ≡ size table.old) }
{
    let mut left = left;
    while 0 < left.own && id < table[2 * left.own - 2] {
        let mine = table[2 * left.own - 2];
        let kept = table[2 * left.own - 1];
        left = left.less(1, 0);
        put(table, 2 * left.place, mine, kept);
    }
    left
}
