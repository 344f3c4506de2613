// Counters at M.
use crate::each_step::{again, deliver, lose, merge, query, send};
use crate::made::{THREE_SITES, TWELVE_SITES, parcel_to, with_entry, with_ledger, with_parcel};
use crate::show::show;
use kept::fresh_kept;
use rules::M;
use std::io;

fn only_lost_can_rise(rt: &impl Print) -> io::Result<()> {
    println!(rt; "sent, copied and absorbed at M: 3 sites, capacity 8")?;
    let run = THREE_SITES;
    let s = with_entry(fresh_kept(0), 0, 7, 1);
    let s = with_parcel(s, 0, parcel_to(1, 7, 1));
    let s = with_ledger(s, M, M, M, M - 1);
    let s = send(rt, s, run, 0, 1, 7)?;
    let s = again(rt, s, run, 0)?;
    let s = deliver(rt, s, run, 0)?;
    let s = query(rt, s, run, 1, 7)?;
    let s = lose(rt, s, run, 0)?;
    let s = merge(rt, s, run, 0, 1)?;
    let s = lose(rt, s, run, 0)?;
    show(rt, s, run)
}

fn only_absorbed_can_rise(rt: &impl Print) -> io::Result<()> {
    println!(rt; "sent, copied and lost at M: 3 sites, capacity 8")?;
    let run = THREE_SITES;
    let s = with_parcel(fresh_kept(0), 0, parcel_to(1, 7, 1));
    let s = with_ledger(s, M, M, M - 1, M);
    let s = lose(rt, s, run, 0)?;
    let s = deliver(rt, s, run, 0)?;
    let s = deliver(rt, s, run, 0)?;
    show(rt, s, run)
}

fn the_last_rise(rt: &impl Print) -> io::Result<()> {
    println!(rt; "sent and absorbed at M - 1: 3 sites, capacity 8")?;
    let run = THREE_SITES;
    let s = with_entry(fresh_kept(0), 0, 7, 1);
    let s = with_ledger(s, M - 1, 0, M - 1, 0);
    let s = send(rt, s, run, 0, 1, 7)?;
    let s = deliver(rt, s, run, 0)?;
    let s = send(rt, s, run, 0, 1, 7)?;
    show(rt, s, run)
}

fn room_before_counter(rt: &impl Print) -> io::Result<()> {
    println!(rt; "8 before 10 on a delivery: site 1 full, absorbed at M; 12 sites, capacity 2")?;
    let run = TWELVE_SITES;
    let s = with_entry(fresh_kept(0), 2, 7, 1);
    let s = with_entry(s, 3, 8, 1);
    let s = with_parcel(s, 0, parcel_to(1, 9, 1));
    let s = with_parcel(s, 1, parcel_to(1, 7, 3));
    let s = with_ledger(s, M, 2, M, 0);
    let s = deliver(rt, s, run, 0)?;
    let s = deliver(rt, s, run, 1)?;
    show(rt, s, run)
}

pub(crate) fn counters_at_most(rt: &impl Print) -> io::Result<()> {
    only_lost_can_rise(rt)?;
    only_absorbed_can_rise(rt)?;
    the_last_rise(rt)?;
    room_before_counter(rt)
}
