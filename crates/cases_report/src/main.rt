// Whole reports, printed, and long ones by their length, a checksum and their two ends. What they must be was computed apart from this program, by
// tests/report_model.py.
#![tactic(auto)]

mod long;
mod show;
mod texts;

use crate::long::long_inputs;
use crate::texts::texts;
use std::io;

fn main(rt: HostRuntime) -> io::Result<()> {
    let mut out = report::largest_room();
    texts(&rt, &mut out)?;
    long_inputs(&rt, &mut out)
}
