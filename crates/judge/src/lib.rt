// What 1 and 2 judge, before a call does anything else: the sizes, then all three lent things. The words are read where they are lent; of the slots and
// the ledger comes, by value, what others saw there.
#![tactic(auto)]

ghost use Rattle.std.specs.Prelude.{◌≡◌, ◌*◌, length};
ghost use Rattle.rules.specs.meaning.Lengths.{M};
ghost use Rattle.rules.specs.meaning.Parcels.{no_parcel};
ghost use Rattle.rules.specs.meaning.Refusals.{number_in};
ghost use Rattle.rules.specs.meaning.States.{sizes_right, tables_sound, all_sound};
ghost use Rattle.judge.specs.Judged.{Sized, seen_as, judgement};

use parcels::no_parcel;
use rules::{Refusal, Run, Scan, Seen, Sight};

// Whether the sizes are within the ranges and the words are as many as the tables take.
#[tactic(auto, using(crate::proofs::Judging::few_words), unfolding(rules::specs::meaning::States::sizes_right))]
pub fn sizes_right(run: Run, words: usize, slots: usize) -> bool
    ensures { result ≡ sizes_right run words slots }
{
    1 <= run.sites
        && run.sites <= 16
        && run.capacity <= 2048
        && slots <= 1024
        && words as u64 == run.sites * (2 * run.capacity)
}

// Whether each of the tables, one after the other, is sound. Every word is read once.
fn tables_sound(words: &[u64], sites: usize, width: usize) -> bool
    requires { length words.now ≡ sites * width }
    ensures { result ≡ tables_sound M width sites words.now }
{
    let mut good = true;
    for k in 0..sites {
        let from = k * width;
        good &= table::sound(&words[from..from + width]);
    }
    good
}

// Whether every table, slot and the ledger is as laid out.
#[tactic(auto, unfolding(rules::specs::meaning::States::all_sound))]
fn all_sound(words: &[u64], run: Run, seen: Sight) -> bool
    requires { Sized run (length words.now) }
    ensures { result ≡ all_sound run words.now seen }
{
    tables_sound(words, run.sites as usize, 2 * run.capacity as usize)
        && seen.scan.sound
        && counts::sound(seen.books.counts, seen.scan.waiting)
        && seen.books.sound
}

// 1, 2, or 0 where neither is given.
#[tactic(auto, using(crate::proofs::Judging::sized), unfolding(crate::specs::Judged::judgement, rules::specs::meaning::Refusals::first_given))]
fn judge(words: &[u64], run: Run, seen: Sight) -> Result<(), Refusal>
    ensures { number_in result ≡ judgement run words.now seen }
{
    if !sizes_right(run, words.len(), seen.count) {
        Err(Refusal::BadSizes)
    } else if !all_sound(words, run, seen) {
        Err(Refusal::Unsound)
    } else {
        Ok(())
    }
}

// The same from the parts that a function has which is lent all three.
pub fn judge_seen(
    words: &[u64],
    run: Run,
    scan: Scan,
    slots: usize,
    books: Seen,
) -> Result<(), Refusal>
    ensures { number_in result ≡ judgement run words.now (seen_as scan no_parcel slots books) }
{
    let seen = Sight {
        scan,
        named: no_parcel(),
        count: slots,
        books,
    };
    judge(words, run, seen)
}
