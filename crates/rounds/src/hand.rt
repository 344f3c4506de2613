// One table handed out to every site.
ghost use Rattle.std.specs.Prelude.{◌≡◌, ◌*◌, ◌-◌, ◌≤◌, ◌++◌, length, take, replicate};
ghost use Rattle.judge.specs.Judged.{Sized};
ghost use Rattle.rules.specs.meaning.States.{width};
ghost use Rattle.rounds.specs.Unions.{front, padded};
ghost use Rattle.rounds.specs.Values.{copies};

use rules::Run;
use steps::part_of;

// The words of one table over those of another. `copy_from_slice` is a call of memmove, which is slower for so few words: a round in a small state takes 5 in
// 100 longer.
pub(crate) fn copy(to: &mut [u64], from: &[u64])
    requires { length to.old ≡ length from.now }
    ensures { to.new ≡ from.now }
{
    for k in 0..from.len() {
        to[k] = from[k];
    }
}

// Every site's table is then this one.
fn hand_out(words: &mut [u64], run: Run, all: &[u64])
    requires sized { Sized run (length words.old) }
    requires all_len { length all.now ≡ width run }
    ensures { words.new ≡ copies run.sites all.now }
{
    for site in 0..run.sites {
        copy(&mut words[part_of(run, site)], all);
    }
}

// Every word from one on is 0. `fill` is slower: a round in a small state takes 6 in 100 longer.
fn clear(all: &mut [u64], from: usize)
    requires { from ≤ length all.old }
    ensures { all.new ≡ take from all.old ++ replicate (length all.old - from) 0 }
{
    for k in from..all.len() {
        all[k] = 0;
    }
}

// The entries that stand in front of the room, with unused places behind them, are every site's table.
pub(crate) fn settle(words: &mut [u64], run: Run, all: &mut [u64], entries: usize)
    requires sized { Sized run (length words.old) }
    requires all_len { (length all.old ≡ width run) × (entries ≤ run.capacity) }
    ensures { words.new ≡ copies run.sites (padded run.capacity entries (front entries all.old)) }
{
    clear(all, 2 * entries);
    hand_out(words, run, all);
}
