// The four counts of a ledger, by value. What each function means is said in `specs/` of the crate `rules`.
#![tactic(auto)]

ghost use Rattle.std.specs.Prelude.{◌≡◌, cond};
ghost use Rattle.rules.specs.meaning.Lengths.{M};
ghost use Rattle.rules.specs.meaning.Ledgers.{no_counts, counts_sound, one_more, raised_if, raised_counts};

use rules::{Counts, M};

// Whether each counter is at most the largest, and what went out is what came in or waits. The counters are bounded before they are
// added, and the difference is compared, so that nothing wraps however many are said to wait.
#[tactic(auto, unfolding(rules::specs::meaning::Ledgers::counts_sound))]
pub fn sound(counts: Counts, waiting: u64) -> bool
    ensures { result ≡ counts_sound M waiting counts }
{
    if counts.sent > M || counts.copied > M || counts.absorbed > M || counts.lost > M {
        return false;
    }
    let out = counts.sent + counts.copied;
    let back = counts.absorbed + counts.lost;
    back <= out && out - back == waiting
}

// One more, and no more than the largest.
#[tactic(auto, unfolding(rules::specs::meaning::Ledgers::one_more))]
fn one_more(n: u64) -> u64
    ensures { result ≡ one_more M n }
{
    if n < M { n + 1 } else { n }
}

// One more where this counter is the one that is named.
#[tactic(auto, unfolding(rules::specs::meaning::Ledgers::raised_if))]
fn raised_if(named: bool, n: u64) -> u64
    ensures { result ≡ raised_if M named n }
{
    if named { one_more(n) } else { n }
}

// The counts with the named counter raised; 0, and any number above 4, names none. The counter is a number, since the contract is for any.
pub fn raised(counts: Counts, counter: u64) -> Counts
    ensures { result ≡ raised_counts M counter counts }
{
    Counts {
        sent: raised_if(counter == 1, counts.sent),
        copied: raised_if(counter == 2, counts.copied),
        absorbed: raised_if(counter == 3, counts.absorbed),
        lost: raised_if(counter == 4, counts.lost),
    }
}

// No count where that is wanted, else the counts as they are.
pub fn emptied(counts: Counts, wanted: bool) -> Counts
    ensures { result ≡ cond wanted no_counts counts }
{
    if wanted { Counts::default() } else { counts }
}
