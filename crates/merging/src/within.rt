// A table joined into another one that stands in the same words: the source is read where it stands.
ghost use Rattle.std.specs.Prelude.{◌≡◌, ℕ, ◌≤◌, ◌<◌, List, true, length as size};
ghost use Rattle.rules.specs.meaning.Table.{SoundTable, held, rises, merged, held_merged};
ghost use Rattle.rules.specs.meaning.Operations.{as_answer, merge_answer, merge_table};
ghost use Rattle.merging.specs.Walks.{Apart, Filling, part_at, with_part, same_ids};

use crate::turns::{Left, put, settle, turn};
use lengths::join;
use rules::Refusal;
use tally::{Tally, alike, count, told};

// Where the two tables stand in the words, and how many words each has.
#[derive(Clone, Copy)]
struct Places {
    to: usize,
    from: usize,
    wide: usize,
}

impl Places {
    // Four turns over common ids.
    fn four(self, words: &mut [u64], left: Left) -> Left
        ghost before: { List ℕ }
        requires le_own { (4 ≤ left.own) × (4 ≤ left.others) }
        requires filling { Filling before self.to self.from self.wide words.old left.own left.others left.place }
        requires same_ids { same_ids before self.to self.from self.wide left.own left.others 4 }
        ensures filling { Filling before self.to self.from self.wide words.new result.own result.others result.place }
        ensures place_lt_place { result.place < left.place }
    {
        let mut left = left;
        for _ in 0..4usize {
            left = left.less(1, 1);
            let own = self.to + 2 * left.own;
            let id = words[own];
            let length = join(words[own + 1], words[self.from + 2 * left.others + 1]);
            put(words, self.to + 2 * left.place, id, length);
        }
        left
    }

    // Eight turns far from both ends. The ids before those compared are read a turn before they are chosen or not, and before an entry is put, so that no turn
    // waits for them and no jump fetches them.
    fn eight(self, words: &mut [u64], left: Left) -> Left
        ghost before: { List ℕ }
        requires lt_own { (9 < left.own) × (9 < left.others) }
        requires filling { Filling before self.to self.from self.wide words.old left.own left.others left.place }
        ensures filling { Filling before self.to self.from self.wide words.new result.own result.others result.place }
        ensures place_lt_place { result.place < left.place }
    {
        let mut left = left;
        let mut mine = words[self.to + 2 * left.own - 2];
        let mut under = words[self.to + 2 * left.own - 4];
        let mut last = words[self.from + 2 * left.others - 2];
        let mut next = words[self.from + 2 * left.others - 4];
        for _ in 0..8usize {
            let kept = words[self.to + 2 * left.own - 1];
            let length = words[self.from + 2 * left.others - 1];
            let now = settle(mine, under, kept, last, next, length);
            left = left.less(now.own, now.others);
            under = words[self.to + 2 * left.own - 4];
            next = words[self.from + 2 * left.others - 4];
            put(words, self.to + 2 * left.place, now.id, now.length);
            mine = now.mine;
            last = now.last;
        }
        left
    }

    // Whether the last four ids that are left of the table are those of the source.
    fn stretch(self, words: &[u64], left: Left) -> bool
        ghost before: { List ℕ }
        requires le_own { (4 ≤ left.own) × (4 ≤ left.others) }
        requires filling { Filling before self.to self.from self.wide words.now left.own left.others left.place }
        ensures { result ≡ true → same_ids before self.to self.from self.wide left.own left.others 4 }
    {
        alike(
            &words[self.to..],
            &words[self.from..],
            left.own - 4,
            left.others - 4,
        )
    }

    // One turn, where an end is near: the table's part of the words is lent on.
    fn one(self, words: &mut [u64], left: Left) -> Left
        ghost before: { List ℕ }
        requires le_others { 1 ≤ left.others }
        requires filling { Filling before self.to self.from self.wide words.old left.own left.others left.place }
        ensures filling { Filling before self.to self.from self.wide words.new result.own result.others result.place }
        ensures place_lt_place { result.place < left.place }
    {
        let id = words[self.from + 2 * left.others - 2];
        let length = words[self.from + 2 * left.others - 1];
        turn(&mut words[self.to..self.to + self.wide], left, id, length)
    }

    // As many turns as can be taken at once: equal stretches four at a time, all else eight turns at a time until an end is near.
    fn onward(self, words: &mut [u64], left: Left) -> Left
        ghost before: { List ℕ }
        requires le_others { 1 ≤ left.others }
        requires filling { Filling before self.to self.from self.wide words.old left.own left.others left.place }
        ensures filling { Filling before self.to self.from self.wide words.new result.own result.others result.place }
        ensures place_lt_place { result.place < left.place }
    {
        if left.own <= 9 || left.others <= 9 {
            self.one(words, left)
        } else if self.stretch(words, left) {
            self.four(words, left)
        } else {
            self.eight(words, left)
        }
    }

    // The table is filled from the back until no entry is left to join in: what is left of the table then stands in its place. A turn
    // places one entry, four or eight.
    fn fill(self, words: &mut [u64], left: Left)
        ghost before: { List ℕ }
        requires { Filling before self.to self.from self.wide words.old left.own left.others left.place }
        ensures { words.new ≡ with_part before self.to self.wide (merged (part_at before self.to self.wide) (part_at before self.from self.wide)) }
    {
        let mut left = left;
        while 0 < left.others {
            left = self.onward(words, left);
        }
    }

    // Counts what a merge of the two tables comes to, where they stand.
    fn survey(self, words: &[u64]) -> Tally
        requires apart { Apart (size words.now) self.to self.from self.wide }
        requires sound_table { SoundTable (part_at words.now self.to self.wide) }
        requires sound_table_2 { SoundTable (part_at words.now self.from self.wide) }
        ensures own_value { (result.own ≡ held (part_at words.now self.to self.wide)) × (result.others ≡ held (part_at words.now self.from self.wide)) }
        ensures held_value { (result.held ≡ held_merged (part_at words.now self.to self.wide) (part_at words.now self.from self.wide)) × (result.rises ≡ rises (part_at words.now self.to self.wide) (part_at words.now self.from self.wide)) }
    {
        count(
            &words[self.to..self.to + self.wide],
            &words[self.from..self.from + self.wide],
        )
    }
}

// The table that stands at a word is joined into the one that stands at another, all or none, as by `merge`. No word outside of the latter is written.
pub fn merge_within(words: &mut [u64], to: usize, from: usize, wide: usize) -> Result<u64, Refusal>
    requires apart { Apart (size words.old) to from wide }
    requires sound_table { SoundTable (part_at words.old to wide) }
    requires sound_table_2 { SoundTable (part_at words.old from wide) }
    ensures value { as_answer result ≡ merge_answer (part_at words.old to wide) (part_at words.old from wide) }
    ensures words_after { words.new ≡ with_part words.old to wide (merge_table (part_at words.old to wide) (part_at words.old from wide)) }
{
    let places = Places { to, from, wide };
    let comes = places.survey(words);
    let rose = told(comes, wide / 2)?;
    if 0 < rose {
        places.fill(words, Left::from(comes));
    }
    Ok(rose)
}
