// What C calls, as a library. The functions here decide nothing: each hands on what it is lent to the crate that does the work, and gives back a number.
// `wiregantry_c` exports them.
#![tactic(auto)]

ghost use Rattle.std.specs.Prelude.{◌≡◌};
ghost use Rattle.rules.specs.meaning.Area.{read_refusal, area_after};
ghost use Rattle.rules.specs.meaning.Bursts.{Handled};
ghost use Rattle.rules.specs.meaning.Calls.{Called};
ghost use Rattle.rules.specs.meaning.Events.{absorbs, round, Happened};
ghost use Rattle.rules.specs.meaning.Groups.{Written, Entered};
ghost use Rattle.rules.specs.meaning.Lags.{lag_answer};
ghost use Rattle.rules.specs.meaning.Members.{Answered};
ghost use Rattle.rules.specs.meaning.Refusals.{number_in, value_in};
ghost use Rattle.rules.specs.meaning.Reports.{Told};
ghost use Rattle.rules.specs.meaning.States.{lent};
ghost use Rattle.rules.specs.meaning.Runs.{Freshened};
ghost use Rattle.rules.specs.meaning.Writing.{check_of, Filled};

use lines::step_for;
use rules::{Ledger, Parcel, Refusal, Run};

// The number that C is given: 0, or that of the refusal.
fn number(answer: Result<(), Refusal>) -> u32
    ensures { result ≡ number_in answer }
{
    match answer {
        Ok(()) => 0,
        Err(refusal) => refusal as u32,
    }
}

// The same of an answer with a value, which C finds at a place of its own; on a refusal `none` stands there.
fn hand_over<T: Copy>(answer: Result<T, Refusal>, none: T, place: &mut T) -> u32
    ensures number { result ≡ number_in answer }
    ensures value { place.new ≡ value_in none answer }
{
    match answer {
        Ok(value) => {
            *place = value;
            0
        }
        Err(refusal) => {
            *place = none;
            refusal as u32
        }
    }
}

// A fresh run of these sizes: "every word, slot and counter 0", and each link at the first serial.
#[unsafe(no_mangle)]
pub extern "C" fn wg_fresh(
    words: &mut [u64],
    slots: &mut [Parcel],
    ledger: &mut Ledger,
    sites: u64,
    capacity: u64,
    first: u32,
) -> u32
    ensures { Freshened (record { sites = sites; capacity = capacity }) first (lent words.old slots.old ledger.old) result (lent words.new slots.new ledger.new) }
{
    let run = Run { sites, capacity };
    number(sites::fresh(words, slots, ledger, run, first))
}

// One step of a run, by the four numbers of a line. Numbers that name no step are refused before anything that is lent is looked at.
#[unsafe(no_mangle)]
pub extern "C" fn wg_step(
    words: &mut [u64],
    slots: &mut [Parcel],
    ledger: &mut Ledger,
    sites: u64,
    capacity: u64,
    kind: u64,
    first: u64,
    second: u64,
    id: u64,
    value: &mut u64,
) -> u32
    ensures { Called (record { sites = sites; capacity = capacity }) (lent words.old slots.old ledger.old) kind first second id result value.new (lent words.new slots.new ledger.new) }
{
    let Some(step) = step_for(kind, first, second, id) else {
        *value = 0;
        return Refusal::NoStep as u32;
    };
    let run = Run { sites, capacity };
    hand_over(sites::step(words, slots, ledger, run, step), 0, value)
}

// How far the newest serial heard on the link from one site to another is from the last one sent there. The run is only read.
#[unsafe(no_mangle)]
pub extern "C" fn wg_lag(
    words: &[u64],
    slots: &[Parcel],
    ledger: &Ledger,
    sites: u64,
    capacity: u64,
    from: u64,
    to: u64,
    lag: &mut i32,
) -> u32
    ensures { (result ≡ (lag_answer (record { sites = sites; capacity = capacity }) (lent words.now slots.now ledger.now) from to).refusal) × (lag.new ≡ (lag_answer (record { sites = sites; capacity = capacity }) (lent words.now slots.now ledger.now) from to).lag) }
{
    let run = Run { sites, capacity };
    hand_over(sites::lag(words, slots, ledger, run, from, to), 0, lag)
}

// Many steps of a run in one call, four numbers asked and two answered for each: the state is judged once.
#[unsafe(no_mangle)]
pub extern "C" fn wg_burst(
    words: &mut [u64],
    slots: &mut [Parcel],
    ledger: &mut Ledger,
    sites: u64,
    capacity: u64,
    asks: &[u64],
    answers: &mut [u64],
) -> u32
    ensures { Handled (record { sites = sites; capacity = capacity }) (lent words.old slots.old ledger.old) asks.now answers.old result (lent words.new slots.new ledger.new) answers.new }
{
    let run = Run { sites, capacity };
    number(bursts::burst(words, slots, ledger, run, asks, answers))
}

// A group's bytes absorbed at a site of a run: how many lengths rose. Of the run only the words of that site are written.
#[unsafe(no_mangle)]
pub extern "C" fn wg_absorb(
    words: &mut [u64],
    slots: &[Parcel],
    ledger: &Ledger,
    sites: u64,
    capacity: u64,
    site: u64,
    bytes: &[u8],
    rose: &mut u64,
) -> u32
    ensures { Happened (record { sites = sites; capacity = capacity }) (lent words.old slots.now ledger.now) (absorbs site bytes.now) (record { refusal = result; value = rose.new }) (lent words.new slots.now ledger.now) }
{
    let run = Run { sites, capacity };
    let answer = intake::absorb(words, slots, ledger, run, site, bytes);
    hand_over(answer, 0, rose)
}

// One repair round: all tables level, and how many merges that is. Of the run only the words are written.
#[unsafe(no_mangle)]
pub extern "C" fn wg_repair(
    words: &mut [u64],
    slots: &[Parcel],
    ledger: &Ledger,
    sites: u64,
    capacity: u64,
    merges: &mut u64,
) -> u32
    ensures { Happened (record { sites = sites; capacity = capacity }) (lent words.old slots.now ledger.now) round (record { refusal = result; value = merges.new }) (lent words.new slots.now ledger.now) }
{
    let run = Run { sites, capacity };
    hand_over(rounds::repair(words, slots, ledger, run), 0, merges)
}

// Bulk membership: an answer for each id, in the bits of the answers.
#[unsafe(no_mangle)]
pub extern "C" fn wg_members(table: &[u64], ids: &[u64], answers: &mut [u8]) -> u32
    ensures { Answered table.now ids.now answers.old result answers.new }
{
    number(members::members(table, ids, answers))
}

// A step line read into an area of 32 bytes or more: its four numbers.
#[unsafe(no_mangle)]
pub extern "C" fn wg_read_line(line: &[u8], area: &mut [u8]) -> u32
    ensures { (result ≡ read_refusal line.now area.old) × (area.new ≡ area_after line.now area.old) }
{
    number(lines::read_into(line, area))
}

// Whether four numbers can be written as a line into so much room.
#[unsafe(no_mangle)]
pub extern "C" fn wg_check_line(kind: u64, first: u64, second: u64, id: u64, room: usize) -> u32
    ensures { result ≡ check_of kind first second id room }
{
    number(lines::check_line(kind, first, second, id, room))
}

// The line of four numbers at the front of the buffer: how many bytes it has, 0 where it is refused.
#[unsafe(no_mangle)]
pub extern "C" fn wg_write_line(
    kind: u64,
    first: u64,
    second: u64,
    id: u64,
    buffer: &mut [u8],
) -> usize
    ensures { Filled kind first second id buffer.old buffer.new result }
{
    lines::fill(kind, first, second, id, buffer)
}

// The report of a text of step lines at the front of the buffer, and how many bytes it has.
#[unsafe(no_mangle)]
pub extern "C" fn wg_report(input: &[u8], out: &mut [u8], written: &mut usize) -> u32
    ensures { Told input.now out.old (record { refusal = result; written = written.new }) out.new }
{
    hand_over(report::report(input, out), 0, written)
}

// A group's entries written as bytes at the front of the buffer, and how many bytes it has.
#[unsafe(no_mangle)]
pub extern "C" fn wg_write_group(entries: &[u64], out: &mut [u8], written: &mut usize) -> u32
    ensures { Written entries.now out.old (record { refusal = result; count = written.new }) out.new }
{
    hand_over(groups::write_group(entries, out), 0, written)
}

// The entries of the group that bytes form at the front of the words that are lent, and how many they are.
#[unsafe(no_mangle)]
pub extern "C" fn wg_read_group(bytes: &[u8], entries: &mut [u64], count: &mut usize) -> u32
    ensures { Entered bytes.now entries.old (record { refusal = result; count = count.new }) entries.new }
{
    hand_over(groups::read_group(bytes, entries), 0, count)
}
