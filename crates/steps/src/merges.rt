// Merging one site's table into another's.
ghost use Rattle.std.specs.Prelude.{◌≡◌};
ghost use Rattle.rules.specs.declared.Step.TheVariants.{Merge};
ghost use Rattle.steps.specs.Verdicts.{Ready, step_verdict, step_words};

use crate::places::{part_of, two_sites};
use crate::verdict::{Verdict, hand_on, refuse};
use rules::{Run, Sight};

// Two parts of the words cannot be lent at one time, one of them to be written: so the words are lent on with the places of the two tables, and nothing is copied.
pub(crate) fn on_merge(words: &mut [u64], run: Run, seen: Sight, from: u64, to: u64) -> Verdict
    requires { Ready run words.old }
    ensures value { result ≡ step_verdict run words.old seen (Merge from to) }
    ensures words_after { words.new ≡ step_words run words.old seen (Merge from to) }
{
    if let Err(refusal) = two_sites(run, from, to) {
        return refuse(refusal, seen);
    }
    let source = part_of(run, from);
    let target = part_of(run, to);
    let wide = target.end - target.start;
    let answer = merging::merge_within(words, target.start, source.start, wide);
    hand_on(answer, seen)
}
