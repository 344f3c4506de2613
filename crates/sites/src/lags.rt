// The lag query, by value but for the words: it is judged like a step, and has its own tests after that.
ghost use Rattle.std.specs.Prelude.{◌≡◌};
ghost use Rattle.rules.specs.meaning.Parcels.{no_parcel};
ghost use Rattle.rules.specs.meaning.Lags.{as_lag, lag_in};
ghost use Rattle.judge.specs.Judged.{seen_as};

use judge::judge_seen;
use links::{lag_of, lag_refusal};
use rules::{Refusal, Run, Scan, Seen};

// 1 or 2, then what the query itself is refused for, else the lag.
pub(crate) fn lag_seen(
    words: &[u64],
    run: Run,
    scan: Scan,
    slots: usize,
    books: Seen,
    from: u64,
    to: u64,
) -> Result<i32, Refusal>
    ensures { as_lag result ≡ lag_in run words.now (seen_as scan no_parcel slots books) from to }
{
    judge_seen(words, run, scan, slots, books)?;
    lag_refusal(run, books.pair, from, to)?;
    Ok(lag_of(books.pair))
}
