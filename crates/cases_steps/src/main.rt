// Small runs, kept by value, take steps and say what became of each: the sample run, every refusal and their order, damaged states, counters at M, serials on links.
#![tactic(auto)]

mod counters;
mod damages;
mod each_step;
mod made;
mod outcomes;
mod refusals;
mod sample;
mod serials;
mod show;

use crate::counters::counters_at_most;
use crate::damages::damages;
use crate::outcomes::outcomes;
use crate::refusals::refusals;
use crate::sample::sample;
use crate::serials::serials;
use std::io;

fn main(rt: HostRuntime) -> io::Result<()> {
    sample(&rt)?;
    refusals(&rt)?;
    outcomes(&rt)?;
    damages(&rt)?;
    counters_at_most(&rt)?;
    serials(&rt)
}
