// Where a site's table stands in the words, and whether two sites are two of the run.
ghost use Rattle.std.specs.Prelude.{◌≡◌, ◌+◌, ◌*◌, ◌≤◌, ◌<◌, ◌≢◌, MatchResult};
ghost use Rattle.rules.specs.meaning.Refusals.{first_given, number_of};
ghost use Rattle.rules.specs.meaning.States.{width};
ghost use Rattle.steps.specs.Verdicts.{sites_tests};

use rules::{Refusal, Run};
use std::ops::Range;

// The part of the words that is a site's table.
pub fn part_of(run: Run, site: u64) -> Range<usize>
    requires { (site < run.sites) × ((run.sites ≤ 16) × (run.capacity ≤ 2048)) }
    ensures { (result.start ≡ site * width run) × (result.end ≡ site * width run + width run) }
{
    let width = 2 * run.capacity as usize;
    let from = site as usize * width;
    from..from + width
}

// What a step from one site to another is refused for before all else.
#[tactic(auto, unfolding(rules::specs::meaning::Refusals::first_given))]
pub(crate) fn two_sites(run: Run, from: u64, to: u64) -> Result<(), Refusal>
    ensures { MatchResult result (λ x. (from < run.sites) × ((to < run.sites) × (from ≢ to))) (λ refusal. (0 < number_of refusal) × (number_of refusal ≡ first_given (sites_tests run from to))) }
{
    if run.sites <= from || run.sites <= to {
        Err(Refusal::NoSite)
    } else if from == to {
        Err(Refusal::SameSite)
    } else {
        Ok(())
    }
}
