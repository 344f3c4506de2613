// What one line of the input adds to the report.
ghost use Rattle.std.specs.Prelude.{◌+◌, ◌≤◌, cond, ◌≡◌, length};
ghost use Rattle.rules.specs.meaning.Lengths.{listed};
ghost use Rattle.rules.specs.meaning.Reports.{refused_line, query_line, accepted_line};
ghost use Rattle.report.specs.Ahead.{line_told};
ghost use Rattle.report.specs.Laid.{Laid};
ghost use Rattle.report.specs.Said.{Sayable, Said};

use crate::pieces::{write_count, write_pair};
use lengths::listed;
use rules::{Refusal, Step};

// "a line for each refused step (input line counted from 1, number)"
#[tactic(auto, using(crate::proofs::Words::refused_long))]
fn write_refused(out: &mut [u8], place: usize, line: u64, refusal: u64) -> usize
    requires { place + length (refused_line line refusal) ≤ length out.old }
    ensures { Laid out.old place (refused_line line refusal) result out.new }
{
    let a = write_pair(out, place, b"line=", line);
    write_count(out, a, b" refused=", refusal)
}

// "and each accepted query (line, site, id, length, 1 if listed else 0)"
#[tactic(auto, using(crate::proofs::Words::query_long))]
fn write_query(out: &mut [u8], place: usize, line: u64, site: u64, id: u64, held: u64) -> usize
    requires { place + length (query_line line site id held) ≤ length out.old }
    ensures { Laid out.old place (query_line line site id held) result out.new }
{
    let present = u64::from(listed(held));
    let a = write_pair(out, place, b"line=", line);
    let b = write_pair(out, a, b" node=", site);
    let d = write_pair(out, b, b" id=", id);
    let e = write_pair(out, d, b" length=", held);
    write_count(out, e, b" present=", present)
}

// The line of an accepted query; every other step says nothing.
fn write_accepted(out: &mut [u8], place: usize, line: u64, step: Step, value: u64) -> usize
    requires { place + length (accepted_line line step value) ≤ length out.old }
    ensures { Laid out.old place (accepted_line line step value) result out.new }
{
    let Step::Query { site, id } = step else {
        return place;
    };
    write_query(out, place, line, site, id, value)
}

// The line of what was refused, or of the step that was accepted.
fn write_said(
    out: &mut [u8],
    place: usize,
    line: u64,
    named: Option<Step>,
    answer: Result<u64, Refusal>,
) -> usize
    requires { place + length (line_told answer line named) ≤ length out.old }
    ensures { Laid out.old place (line_told answer line named) result out.new }
{
    match answer {
        Err(refusal) => write_refused(out, place, line, refusal as u64),
        Ok(value) => match named {
            Some(step) => write_accepted(out, place, line, step, value),
            None => place,
        },
    }
}

// The same; but into an empty buffer nothing is written, and the line is measured where no one sees it. None is longer than 99 bytes.
pub(crate) fn say_line(
    out: &mut [u8],
    place: usize,
    line: u64,
    named: Option<Step>,
    answer: Result<u64, Refusal>,
) -> usize
    requires { Sayable 99 out.old place (line_told answer line named) }
    ensures { Said out.old place (line_told answer line named) result out.new }
{
    if out.len() > 0 {
        return write_said(out, place, line, named, answer);
    }
    let mut aside = [0u8; 99];
    let long = write_said(&mut aside, 0, line, named, answer);
    place + long
}
