// What a merge comes to, by one joint walk over the two tables.
ghost use Rattle.std.specs.Prelude.{◌≡◌, ℕ, ◌+◌, ◌≤◌, ◌<◌};
ghost use Rattle.rules.specs.meaning.Table.{SoundTable, held, id_at, held_merged, rises};
ghost use Rattle.tally.specs.Joined.{Walk};

use crate::passes::{alike, pass, rise};
use table::held;

// A source of which there is one entry to so many of the table is one of few entries.
pub const FEW: usize = 8;

// What a merge comes to: the entries that the table and the source have, those that the table ends with, and the lengths that rise.
#[derive(Clone, Copy)]
pub struct Tally {
    pub own: usize,
    pub others: usize,
    pub held: usize,
    pub rises: u64,
}

// How far the walk has come: the entries passed in the table and in the source, what those passed come to, and whether a stretch of equal ids may begin.
// No `Tally`, whose first two fields say what there is and not what is passed.
#[derive(Clone, Copy)]
struct At {
    own: usize,
    others: usize,
    held: usize,
    rises: u64,
    abreast: bool,
}

// The table and the source, with how many entries each has.
#[derive(Clone, Copy)]
struct Both<'a> {
    table: &'a [u64],
    used: usize,
    entries: &'a [u64],
    all: usize,
    ghost sound_table: { SoundTable table.now },
    ghost sound_entries: { SoundTable entries.now },
    ghost used_value: { used ≡ held table.now },
    ghost all_value: { all ≡ held entries.now },
}

impl Both<'_> {
    // One turn with branches, where an end is near.
    fn turn(self, at: At) -> At
        requires others_bound { at.others < self.all }
        requires walk { Walk self.table.now self.entries.now at.held at.rises at.own at.others }
        ensures walk_2 { Walk self.entry.table.now self.entry.entries.now result.held result.rises result.own result.others }
        ensures own_le_own { (at.own ≤ result.own) × (at.others ≤ result.others) × (at.own + at.others < result.own + result.others) }
    {
        let id = self.entries[2 * at.others];
        if at.own < self.used {
            let mine = self.table[2 * at.own];
            if mine < id {
                return At {
                    own: at.own + 1,
                    abreast: false,
                    ..at
                };
            }
            if mine == id {
                let more = rise(self.table[2 * at.own + 1], self.entries[2 * at.others + 1]);
                return At {
                    own: at.own + 1,
                    others: at.others + 1,
                    rises: at.rises + more,
                    abreast: false,
                    ..at
                };
            }
        }
        At {
            others: at.others + 1,
            held: at.held + 1,
            rises: at.rises + 1,
            abreast: false,
            ..at
        }
    }

    // Four turns over common ids.
    fn four(self, at: At) -> At
        requires own_bound { (at.own + 4 ≤ self.used) × (at.others + 4 ≤ self.all) }
        requires same_ids { (k : ℕ) → k < 4 → id_at self.table.now (at.own + k) ≡ id_at self.entries.now (at.others + k) }
        requires walk { Walk self.table.now self.entries.now at.held at.rises at.own at.others }
        ensures walk_2 { Walk self.entry.table.now self.entry.entries.now result.held result.rises result.own result.others }
        ensures own_value { (result.own ≡ at.own + 4) × (result.others ≡ at.others + 4) }
    {
        let mut rises = at.rises;
        for k in 0..4 {
            rises += rise(
                self.table[2 * (at.own + k) + 1],
                self.entries[2 * (at.others + k) + 1],
            );
        }
        At {
            own: at.own + 4,
            others: at.others + 4,
            rises,
            abreast: true,
            ..at
        }
    }

    // Eight turns far from both ends. The ids after those compared are read before the comparison ends, so that the next turn does not wait for them; whether
    // they are the same in all eight turns tells if a stretch of equal ids may begin. It also gives each id that is read a second use: one that is only chosen
    // or not is fetched by a jump on x86-64, and nobody can foresee the choice. A turn that passes no entry of the table passes an id that is new to it.
    fn eight(self, at: At) -> At
        requires own_bound { (at.own + 8 < self.used) × (at.others + 8 < self.all) }
        requires walk { Walk self.table.now self.entries.now at.held at.rises at.own at.others }
        ensures walk_2 { Walk self.entry.table.now self.entry.entries.now result.held result.rises result.own result.others }
        ensures own_le_own { (at.own ≤ result.own) × (at.others ≤ result.others) × (at.own + at.others < result.own + result.others) }
    {
        let mut to = At {
            abreast: true,
            ..at
        };
        let mut mine = self.table[2 * at.own];
        let mut id = self.entries[2 * at.others];
        for _ in 0..8usize {
            let after = self.table[2 * to.own + 2];
            let next = self.entries[2 * to.others + 2];
            to.abreast &= after == next;
            let kept = self.table[2 * to.own + 1];
            let length = self.entries[2 * to.others + 1];
            let now = pass(mine, after, kept, id, next, length);
            to.own += now.own;
            to.others += now.others;
            to.rises += now.rises;
            mine = now.mine;
            id = now.id;
        }
        let fresh = 8 - (to.own - at.own);
        At {
            held: at.held + fresh,
            rises: to.rises + fresh as u64,
            ..to
        }
    }

    // As many turns as can be taken at once. Few entries against a long table, as those of a group, are one turn after the other: nearly all of them pass an
    // entry of the table, which is foreseen.
    fn onward(self, at: At) -> At
        requires others_bound { at.others < self.all }
        requires walk { Walk self.table.now self.entries.now at.held at.rises at.own at.others }
        ensures walk_2 { Walk self.entry.table.now self.entry.entries.now result.held result.rises result.own result.others }
        ensures own_le_own { (at.own ≤ result.own) × (at.others ≤ result.others) × (at.own + at.others < result.own + result.others) }
    {
        if self.all <= self.used / FEW || self.used <= at.own + 8 || self.all <= at.others + 8 {
            self.turn(at)
        } else if at.abreast && alike(self.table, self.entries, at.own, at.others) {
            self.four(at)
        } else {
            self.eight(at)
        }
    }

    // The whole walk: equal stretches four at a time, all else eight turns at a time until an end is near. A turn passes one
    // entry, four or eight.
    fn walk(self) -> At
        ensures walk { Walk self.entry.table.now self.entry.entries.now result.held result.rises result.own result.others }
        ensures entries_bound { self.entry.all ≤ result.others }
    {
        let mut at = At {
            own: 0,
            others: 0,
            held: self.used,
            rises: 0,
            abreast: true,
        };
        while at.others < self.all {
            at = self.onward(at);
        }
        at
    }
}

// Counts what a merge comes to.
pub fn count(table: &[u64], entries: &[u64]) -> Tally
    requires sound_table { SoundTable table.now }
    requires sound_table_2 { SoundTable entries.now }
    ensures own_value { (result.own ≡ held table.now) × (result.others ≡ held entries.now) }
    ensures held_value { (result.held ≡ held_merged table.now entries.now) × (result.rises ≡ rises table.now entries.now) }
{
    let both = Both {
        table,
        used: held(table),
        entries,
        all: held(entries),
    };
    let end = both.walk();
    Tally {
        own: both.used,
        others: both.all,
        held: end.held,
        rises: end.rises,
    }
}
