// All tables evened out. What they come to is found beside the words: nothing that is lent is written before it is known to fit.
ghost use Rattle.std.specs.Prelude.{◌≡◌, ◌≤◌, length};
ghost use Rattle.rules.specs.meaning.States.{width};
ghost use Rattle.rounds.specs.Values.{Repairable, Evened};

use crate::hand::{copy, settle};
use crate::level::level;
use crate::tables::in_use;
use crate::union::unite;
use rules::{GROUP_WORDS, Run, TABLE_WORDS};
use std::mem::swap;

// Site 0's entries stand in one of two rooms, and those of the others are joined in, in rising order, as long as there are places: the rooms take turns, and
// what stands in the one goes, with the next table, into the other. Whether all fit one together; where they do not, no word is written.
fn even_in<'a>(
    words: &mut [u64],
    run: Run,
    mut here: &'a mut [u64],
    mut there: &'a mut [u64],
) -> bool
    requires repairable { Repairable run words.old }
    requires wide { (length here.old ≡ width run) × (length there.old ≡ width run) }
    ensures { Evened run words.old result words.new }
{
    let own = in_use(words, run, 0);
    copy(&mut here[..own.len()], own);
    let mut entries = own.len() / 2;
    for site in 1..run.sites {
        let own = in_use(words, run, site);
        let Some(joined) = unite(&here[..2 * entries], own, there) else {
            return false;
        };
        entries = joined;
        swap(&mut here, &mut there);
    }
    settle(words, run, here, entries);
    true
}

// A room is cleared before it is lent, and a small one in a fraction of the time.
fn even_in_rooms<const WORDS: usize>(words: &mut [u64], run: Run) -> bool
    requires repairable { Repairable run words.old }
    requires within { (width run ≤ WORDS) × (WORDS ≤ 4096) }
    ensures { Evened run words.old result words.new }
{
    let mut here = [0; WORDS];
    let mut there = [0; WORDS];
    let wide = 2 * run.capacity as usize;
    even_in(words, run, &mut here[..wide], &mut there[..wide])
}

// Which rooms it is, is asked once.
fn even_beside(words: &mut [u64], run: Run) -> bool
    requires { Repairable run words.old }
    ensures { Evened run words.old result words.new }
{
    if 2 * run.capacity as usize <= GROUP_WORDS {
        even_in_rooms::<GROUP_WORDS>(words, run)
    } else {
        even_in_rooms::<TABLE_WORDS>(words, run)
    }
}

// Tables that are equal already are only read.
pub(crate) fn even_out(words: &mut [u64], run: Run) -> bool
    requires { Repairable run words.old }
    ensures { Evened run words.old result words.new }
{
    level(words, run) || even_beside(words, run)
}
