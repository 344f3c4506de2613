// What stands at the end of every report: the ledger and the sites.
ghost use Rattle.std.specs.Prelude.{◌+◌, ◌≤◌, ◌≡◌, length};
ghost use Rattle.rules.specs.meaning.Table.{SoundTable};
ghost use Rattle.rules.specs.meaning.Parcels.{waiting};
ghost use Rattle.rules.specs.meaning.Reports.{ledger_lines, site_line, site_lines, ending, end_room};
ghost use Rattle.report.specs.Laid.{Laid};
ghost use Rattle.report.specs.Said.{Sayable, Said};
ghost use Rattle.report.specs.Tables.{ThreeTables};

use crate::pieces::{write_count, write_pair};
use parcels::is_free;
use rules::{Counts, Parcel, ROOM_BESIDES};
use table::{held, shown};

// "Waiting is not stored: it is the number of occupied slots"
fn count_waiting(slots: [Parcel; 8]) -> u64
    ensures { result ≡ waiting slots }
{
    slots.iter().filter(|parcel| !is_free(**parcel)).count() as u64
}

// "then the ledger"
#[tactic(auto, using(crate::proofs::Words::ledger_long))]
fn write_ledger(out: &mut [u8], place: usize, counts: Counts, waiting: u64) -> usize
    requires { place + length (ledger_lines counts waiting) ≤ length out.old }
    ensures { Laid out.old place (ledger_lines counts waiting) result out.new }
{
    let a = write_count(out, place, b"sent=", counts.sent);
    let b = write_count(out, a, b"copied=", counts.copied);
    let d = write_count(out, b, b"absorbed=", counts.absorbed);
    let e = write_count(out, d, b"lost=", counts.lost);
    write_count(out, e, b"waiting=", waiting)
}

// "From now on the site line is `node=N held=H shown=S`"
#[tactic(auto, using(crate::proofs::Counted::site_long))]
fn write_site(out: &mut [u8], place: usize, site: usize, table: &[u64]) -> usize
    requires sound_table { SoundTable table.now }
    requires table_in_bounds { place + length (site_line site table.now) ≤ length out.old }
    ensures { Laid out.old place (site_line site table.now) result out.new }
{
    let entries = held(table) as u64;
    let listed = shown(table) as u64;
    let a = write_pair(out, place, b"node=", site as u64);
    let b = write_pair(out, a, b" held=", entries);
    write_count(out, b, b" shown=", listed)
}

fn write_sites(out: &mut [u8], place: usize, words: &[u64]) -> usize
    requires three_tables { ThreeTables words.now }
    requires words_in_bounds { place + length (site_lines 3 0 words.now) ≤ length out.old }
    ensures { Laid out.old place (site_lines 3 0 words.now) result out.new }
{
    let mut next = place;
    for k in 0..3 {
        next = write_site(out, next, k, &words[k * 16..k * 16 + 16]);
    }
    next
}

#[tactic(auto, using(crate::proofs::Counted::end_long))]
fn write_ending(
    out: &mut [u8],
    place: usize,
    words: [u64; 48],
    slots: [Parcel; 8],
    counts: Counts,
) -> usize
    requires { ThreeTables words × (place + length (ending words slots counts) ≤ length out.old) }
    ensures { Laid out.old place (ending words slots counts) result out.new }
{
    let next = write_ledger(out, place, counts, count_waiting(slots));
    write_sites(out, next, &words)
}

// The same; but into an empty buffer nothing is written, and the ending is measured where no one sees it.
// `say_line` does so with a line. One function for both is no plainer: it would take the writer as a closure, and say of that what these two say.
pub(crate) fn say_ending(
    out: &mut [u8],
    place: usize,
    words: [u64; 48],
    slots: [Parcel; 8],
    counts: Counts,
) -> usize
    requires { ThreeTables words × Sayable end_room out.old place (ending words slots counts) }
    ensures { Said out.old place (ending words slots counts) result out.new }
{
    if out.len() > 0 {
        return write_ending(out, place, words, slots, counts);
    }
    let mut aside = [0u8; ROOM_BESIDES];
    let long = write_ending(&mut aside, 0, words, slots, counts);
    place + long
}
