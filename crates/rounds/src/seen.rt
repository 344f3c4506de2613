// A repair round by value but for the words: judged like a step, then its own test, then the tables.
ghost use Rattle.std.specs.Prelude.{◌≡◌};
ghost use Rattle.rules.specs.meaning.Operations.{as_answer};
ghost use Rattle.rules.specs.meaning.Parcels.{no_parcel};
ghost use Rattle.judge.specs.Judged.{seen_as};
ghost use Rattle.rounds.specs.Values.{answer_seen, words_seen};

use crate::even::even_out;
use judge::judge_seen;
use rules::{Refusal, Run, Scan, Seen};

// 1 or 2; then 8 before any write. "It returns the number of merges", two for each site but the first.
pub(crate) fn repair_seen(
    words: &mut [u64],
    run: Run,
    scan: Scan,
    slots: usize,
    books: Seen,
) -> Result<u64, Refusal>
    ensures { (as_answer result ≡ answer_seen run words.old (seen_as scan no_parcel slots books)) × (words.new ≡ words_seen run words.old (seen_as scan no_parcel slots books)) }
{
    judge_seen(words, run, scan, slots, books)?;
    if !even_out(words, run) {
        return Err(Refusal::NoRoom);
    }
    Ok(2 * (run.sites - 1))
}
