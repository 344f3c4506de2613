// One pass over the input: its lines are run in their order, and each says what it has to say.
ghost use Rattle.std.specs.Prelude.{◌≤◌, ◌<◌, ◌≡◌, length};
ghost use Rattle.rules.specs.meaning.Calls.{named_answer, named_after};
ghost use Rattle.rules.specs.meaning.Operations.{as_answer};
ghost use Rattle.rules.specs.meaning.Reports.{report_of, input_limit};
ghost use Rattle.rules.specs.meaning.States.{StateSound, lent};
ghost use Rattle.report.specs.Said.{Said};

use crate::ahead::next_line;
use crate::ends::say_ending;
use crate::said::say_line;
use rules::{Counts, ENTRIES, Ledger, Pair, Parcel, Refusal, Run, Step};
use sites::take;

// The step that a line names is taken; where it names none it is answered 11, and nothing changes.
#[tactic(auto, unfolding(rules::specs::meaning::Calls::named_answer, rules::specs::meaning::Calls::named_after))]
fn answer_to(
    words: &mut [u64],
    slots: &mut [Parcel],
    ledger: &mut Ledger,
    run: Run,
    named: Option<Step>,
) -> Result<u64, Refusal>
    requires { StateSound run (lent words.old slots.old ledger.old) }
    ensures answer { as_answer result ≡ named_answer run (lent words.old slots.old ledger.old) named }
    ensures state { lent words.new slots.new ledger.new ≡ named_after run (lent words.old slots.old ledger.old) named }
{
    match named {
        Some(step) => take(words, slots, ledger, run, step, 0),
        None => Err(Refusal::NoStep),
    }
}

// The whole report, at the front of a buffer that has room for it; into an empty one nothing is written, and what is returned is the report's length.
// The run stands in locals and is lent to each step. It begins fresh and steps alone change it, so that it is sound throughout and is never judged.
// `start` is where line n begins, which only the line before it tells.
pub(crate) fn say_report(input: &[u8], out: &mut [u8]) -> usize
    requires { (length input.now ≤ input_limit) × (0 < length out.old → length (report_of input.now) ≤ length out.old) }
    ensures { Said out.old 0 (report_of input.now) result out.new }
{
    let run = Run {
        sites: 3,
        capacity: 8,
    };
    let begun = Pair {
        next: 0,
        heard: 0,
        unsent: 1,
        unheard: 1,
    };
    let mut words = [0u64; 48];
    let mut slots = [Parcel::default(); 8];
    let mut ledger = Ledger {
        counts: Counts::default(),
        pairs: [begun; ENTRIES],
    };
    let mut n: u64 = 1;
    let mut start = 0;
    let mut place = 0;
    while start < input.len() {
        let (named, next) = next_line(input, start);
        let answer = answer_to(&mut words, &mut slots, &mut ledger, run, named);
        place = say_line(out, place, n, named, answer);
        start = next;
        n += 1;
    }
    say_ending(out, place, words, slots, ledger.counts)
}
