// The rules on one length, by value: the paper's Figure 4 for one id. What each means is said in `specs/meaning/Lengths.antt` of the crate `rules`.
#![tactic(auto)]

ghost use Rattle.std.specs.Prelude.{◌≡◌};
ghost use Rattle.rules.specs.meaning.Lengths.{M, listed, after_add, join};
ghost use Rattle.rules.specs.meaning.Operations.{as_answer, removed_length};

use rules::{M, Refusal};

// Whether an id of this length is listed.
#[tactic(auto, unfolding(rules::specs::meaning::Lengths::listed))]
pub fn listed(length: u64) -> bool
    ensures { result ≡ listed length }
{
    length % 2 == 1
}

// The length after an add. The largest number is odd, so nothing runs over.
#[tactic(auto, unfolding(rules::specs::meaning::Lengths::after_add, rules::specs::meaning::Lengths::listed))]
pub fn after_add(length: u64) -> u64
    ensures { result ≡ after_add length }
{
    if listed(length) { length } else { length + 1 }
}

// The length after a remove, refused where that is above the largest.
#[tactic(auto, using(crate::proofs::Removing::removed))]
pub fn after_remove(length: u64) -> Result<u64, Refusal>
    ensures { as_answer result ≡ removed_length M length }
{
    let after = length.saturating_add(length % 2);
    if M < after {
        Err(Refusal::LengthsOut)
    } else {
        Ok(after)
    }
}

// The larger of two lengths.
pub fn join(a: u64, b: u64) -> u64
    ensures { result ≡ join a b }
{
    a.max(b)
}
