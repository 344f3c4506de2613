// The state of a run: the entries of each table, the slots that are not free, the counts, and the entry of each link that is not as it began.
use kept::Kept;
use parcels::is_free;
use rules::{Counts, ENTRIES, Pair, Parcel, Run};
use std::io;

// A place with either word not 0 is shown, so that a damaged table is seen whole. The words of a kept run leave no run with capacity 0.
fn show_tables(rt: &impl Print, words: &[u64; 48], capacity: u64) -> io::Result<()> {
    for place in 0..24 {
        let (id, length) = (words[2 * place], words[2 * place + 1]);
        if id != 0 || length != 0 {
            let site = (place as u64).checked_div(capacity).unwrap_or(0);
            println!(rt; "  node={site} id={id} length={length}")?;
        }
    }
    Ok(())
}

fn show_slots(rt: &impl Print, slots: &[Parcel; 8]) -> io::Result<()> {
    for (slot, parcel) in slots.iter().enumerate() {
        if !is_free(*parcel) {
            let Parcel {
                site,
                id,
                length,
                sender,
                serial,
            } = *parcel;
            println!(rt;
                "  slot={slot} from={sender} to={site} id={id} length={length} serial={serial}"
            )?;
        }
    }
    Ok(())
}

fn show_counts(rt: &impl Print, counts: Counts) -> io::Result<()> {
    let Counts {
        sent,
        copied,
        absorbed,
        lost,
    } = counts;
    println!(rt; "  sent={sent} copied={copied} absorbed={absorbed} lost={lost}")
}

// An entry that is as it began has both marks standing as the library sets them.
fn has_begun(pair: Pair) -> bool {
    pair.unsent == 1 && pair.unheard == 1
}

fn show_pairs(rt: &impl Print, pairs: &[Pair; ENTRIES]) -> io::Result<()> {
    for (at, pair) in pairs.iter().enumerate() {
        if !has_begun(*pair) {
            let Pair {
                next,
                heard,
                unsent,
                unheard,
            } = *pair;
            println!(rt;
                "  from={} to={} next={next} heard={heard} unsent={unsent} unheard={unheard}",
                at / 16,
                at % 16
            )?;
        }
    }
    Ok(())
}

pub(crate) fn show(rt: &impl Print, state: Kept, run: Run) -> io::Result<()> {
    show_tables(rt, &state.words, run.capacity)?;
    show_slots(rt, &state.slots)?;
    show_counts(rt, state.ledger.counts)?;
    show_pairs(rt, &state.ledger.pairs)
}
