// Damaged states and wrong sizes are refused and left as they were, whatever the step.
use crate::each_step::{add, again, deliver, lose, merge, query, remove, send};
use crate::made::{THREE_SITES, parcel_to, with_entry, with_ledger, with_parcel};
use crate::show::show;
use kept::{Kept, fresh_kept};
use rules::{M, Run};
use std::io;

fn damaged_tables(rt: &impl Print) -> io::Result<()> {
    let run = THREE_SITES;
    println!(rt; "damaged: the last site's table has equal ids")?;
    let s = with_entry(fresh_kept(0), 16, 7, 1);
    let s = with_entry(s, 17, 7, 2);
    show(rt, query(rt, s, run, 0, 7)?, run)?;
    println!(rt; "damaged: falling ids")?;
    let s = with_entry(fresh_kept(0), 0, 9, 1);
    let s = with_entry(s, 1, 7, 1);
    show(rt, merge(rt, s, run, 1, 2)?, run)?;
    println!(rt; "damaged: a length above M")?;
    let s = with_entry(fresh_kept(0), 0, 7, M + 1);
    show(rt, remove(rt, s, run, 0, 7)?, run)?;
    println!(rt; "damaged: a word behind the entries")?;
    let s = with_entry(fresh_kept(0), 0, 7, 1);
    let s = with_entry(s, 1, 9, 0);
    show(rt, add(rt, s, run, 0, 9)?, run)?;
    println!(rt; "damaged: an entry behind an unused place")?;
    let s = with_entry(fresh_kept(0), 1, 7, 1);
    show(rt, send(rt, s, run, 0, 1, 7)?, run)
}

fn damaged_slots(rt: &impl Print) -> io::Result<()> {
    let run = THREE_SITES;
    println!(rt; "damaged: a slot with length 0 and an id")?;
    let s = with_parcel(fresh_kept(0), 5, parcel_to(0, 7, 0));
    show(rt, query(rt, s, run, 0, 7)?, run)?;
    println!(rt; "damaged: a slot with length 0 and a site")?;
    let s = with_parcel(fresh_kept(0), 7, parcel_to(2, 0, 0));
    show(rt, deliver(rt, s, run, 7)?, run)?;
    let one_sent = with_ledger(fresh_kept(0), 1, 0, 0, 0);
    println!(rt; "damaged: a slot with a site outside the run")?;
    let s = with_parcel(one_sent, 0, parcel_to(3, 7, 1));
    show(rt, deliver(rt, s, run, 0)?, run)?;
    println!(rt; "damaged: a slot with a length above M")?;
    let s = with_parcel(one_sent, 0, parcel_to(1, 7, M + 1));
    show(rt, lose(rt, s, run, 0)?, run)
}

// The last sum is right only as words that wrap.
fn damaged_ledgers(rt: &impl Print) -> io::Result<()> {
    let run = THREE_SITES;
    println!(rt; "damaged: a parcel waits that was never sent")?;
    let s = with_parcel(fresh_kept(0), 0, parcel_to(1, 7, 1));
    show(rt, again(rt, s, run, 0)?, run)?;
    println!(rt; "damaged: one was sent, and it is nowhere")?;
    let s = with_ledger(fresh_kept(0), 1, 0, 0, 0);
    show(rt, add(rt, s, run, 0, 7)?, run)?;
    println!(rt; "damaged: counters whose sum wraps to 0")?;
    let s = with_ledger(fresh_kept(0), u64::MAX, 1, 0, 0);
    show(rt, query(rt, s, run, 0, 7)?, run)
}

// Each sum is right, so only the bound can tell.
fn counters_above_most(rt: &impl Print) -> io::Result<()> {
    let run = THREE_SITES;
    println!(rt; "damaged: each counter in turn above M")?;
    let s = with_ledger(fresh_kept(0), M + 1, 0, M, 1);
    show(rt, merge(rt, s, run, 0, 1)?, run)?;
    let s = with_ledger(fresh_kept(0), 0, M + 1, M, 1);
    show(rt, remove(rt, s, run, 0, 7)?, run)?;
    let s = with_ledger(fresh_kept(0), M, 1, M + 1, 0);
    show(rt, send(rt, s, run, 0, 1, 7)?, run)?;
    let s = with_ledger(fresh_kept(0), M, 1, 0, M + 1);
    show(rt, lose(rt, s, run, 0)?, run)
}

fn sized(rt: &impl Print, sites: u64, capacity: u64) -> io::Result<()> {
    print!(rt; "sites={sites} capacity={capacity} ")?;
    let run = Run {
        sites: sites,
        capacity: capacity,
    };
    query(rt, fresh_kept(0), run, 0, 7)?;
    Ok(())
}

// 24 sites fit the words and are too many; the last capacity fits only as a product that wraps.
fn sizes(rt: &impl Print) -> io::Result<()> {
    println!(rt; "sizes that a run of 48 words may have")?;
    sized(rt, 1, 24)?;
    sized(rt, 2, 12)?;
    sized(rt, 12, 2)?;
    println!(rt; "and sizes that it may not")?;
    sized(rt, 0, 0)?;
    sized(rt, 0, 8)?;
    sized(rt, 17, 2)?;
    sized(rt, 24, 1)?;
    sized(rt, 3, 7)?;
    sized(rt, 3, 9)?;
    sized(rt, 3, 0)?;
    sized(rt, 1, 2049)?;
    sized(rt, 1, 9223372036854775832)
}

fn every_step(rt: &impl Print, before: Kept, run: Run) -> io::Result<Kept> {
    let s = add(rt, before, run, 0, 7)?;
    let s = remove(rt, s, run, 0, 7)?;
    let s = query(rt, s, run, 0, 7)?;
    let s = send(rt, s, run, 0, 1, 7)?;
    let s = merge(rt, s, run, 0, 1)?;
    let s = deliver(rt, s, run, 0)?;
    let s = again(rt, s, run, 0)?;
    lose(rt, s, run, 0)
}

// The damage is at a site and in a slot that none of them names, and in a counter that only one of them raises.
fn every_step_judges(rt: &impl Print) -> io::Result<()> {
    let run = THREE_SITES;
    println!(rt; "each step judges the sizes: capacity 7")?;
    let s = every_step(
        rt,
        fresh_kept(0),
        Run {
            sites: 3,
            capacity: 7,
        },
    )?;
    show(rt, s, run)?;
    println!(rt; "each step judges the tables: a word of the last site's last place")?;
    let s = every_step(rt, with_entry(fresh_kept(0), 23, 7, 0), run)?;
    show(rt, s, run)?;
    println!(rt; "each step judges the slots: an id in the last one")?;
    let s = every_step(rt, with_parcel(fresh_kept(0), 7, parcel_to(0, 7, 0)), run)?;
    show(rt, s, run)?;
    println!(rt; "each step judges the ledger: a loss of nothing")?;
    let s = every_step(rt, with_ledger(fresh_kept(0), 0, 0, 0, 1), run)?;
    show(rt, s, run)
}

pub(crate) fn damages(rt: &impl Print) -> io::Result<()> {
    damaged_tables(rt)?;
    damaged_slots(rt)?;
    damaged_ledgers(rt)?;
    counters_above_most(rt)?;
    sizes(rt)?;
    every_step_judges(rt)
}
