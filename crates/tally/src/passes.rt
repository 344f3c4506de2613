// One turn of the joint walk by value, and the test for a stretch of equal ids.
ghost use Rattle.std.specs.Prelude.{◌≡◌, ◌+◌, ◌*◌, ◌≤◌, ◌<◌, cond, ◌&&◌, eqb, ltb, length as size};
ghost use Rattle.rules.specs.meaning.Table.{id_at};

// One turn by value: how far it goes on in the table and in the source, the ids that stand there then, and whether a length of a common id rises.
#[derive(Clone, Copy)]
pub(crate) struct Passed {
    pub own: usize,
    pub others: usize,
    pub mine: u64,
    pub id: u64,
    pub rises: u64,
}

// 1 where a length rises, else 0.
pub(crate) fn rise(own: u64, other: u64) -> u64
    ensures { (result ≡ cond (ltb own other) 1 0) × (result ≤ 1) }
{
    u64::from(own < other)
}

// The smaller id is passed, a common one in both tables. Nobody can foresee which it is, so no branch depends on it: the tests' bits are added.
pub(crate) fn pass(mine: u64, after: u64, kept: u64, id: u64, next: u64, length: u64) -> Passed
    ensures own_value { mine < id → (result.own ≡ 1) × (result.others ≡ 0) × (result.mine ≡ after) × (result.id ≡ id) × (result.rises ≡ 0) }
    ensures own_value_2 { mine ≡ id → (result.own ≡ 1) × (result.others ≡ 1) × (result.mine ≡ after) × (result.id ≡ next) × (result.rises ≡ cond (ltb kept length) 1 0) }
    ensures own_value_3 { id < mine → (result.own ≡ 0) × (result.others ≡ 1) × (result.mine ≡ mine) × (result.id ≡ next) × (result.rises ≡ 0) }
    ensures own_bound { (result.own ≤ 1) × (result.others ≤ 1) × (result.rises ≤ 1) }
{
    let on = mine <= id;
    let other_on = id <= mine;
    let rises = on & other_on & (kept < length);
    Passed {
        own: usize::from(on),
        others: usize::from(other_on),
        mine: if on { after } else { mine },
        id: if other_on { next } else { id },
        rises: u64::from(rises),
    }
}

// Whether four ids from a place on are those of four others. All four are compared, with no early exit.
pub fn alike(table: &[u64], entries: &[u64], own: usize, others: usize) -> bool
    requires { (2 * (own + 4) ≤ size table.now) × (2 * (others + 4) ≤ size entries.now) }
    ensures { result ≡ (eqb (id_at table.now own) (id_at entries.now others) && eqb (id_at table.now (own + 1)) (id_at entries.now (others + 1))) && (eqb (id_at table.now (own + 2)) (id_at entries.now (others + 2)) && eqb (id_at table.now (own + 3)) (id_at entries.now (others + 3))) }
{
    let mut same = true;
    for k in 0..4 {
        same &= table[2 * (own + k)] == entries[2 * (others + k)];
    }
    same
}
