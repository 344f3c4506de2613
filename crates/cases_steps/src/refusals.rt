// The refusals in their order: wherever it can be, the later ones of the same step hold too.
use crate::each_step::{add, again, deliver, lose, merge, query, remove, send};
use crate::made::{ONE_SITE, THREE_SITES, TWELVE_SITES, all_waiting, with_entry, with_ledger};
use crate::show::show;
use kept::fresh_kept;
use rules::{M, Run};
use std::io;

fn sizes_state_site(rt: &impl Print) -> io::Result<()> {
    println!(rt; "1 before 2 before 3: 2 sites, then the ledger off, then a fresh run")?;
    let run = THREE_SITES;
    let off = with_ledger(fresh_kept(0), 1, 0, 0, 0);
    let s = add(
        rt,
        off,
        Run {
            sites: 2,
            capacity: 8,
        },
        9,
        7,
    )?;
    let s = add(rt, s, run, 9, 7)?;
    show(rt, s, run)?;
    let s = add(rt, fresh_kept(0), run, 9, 7)?;
    let s = remove(rt, s, run, 3, 7)?;
    let s = query(rt, s, run, 3, 7)?;
    show(rt, s, run)
}

fn send_refused(rt: &impl Print) -> io::Result<()> {
    println!(rt; "3 before 4 before 6 before 9 before 10: every slot occupied, sent at M")?;
    let run = THREE_SITES;
    let s = send(rt, all_waiting(), run, 9, 9, 8)?;
    let s = send(rt, s, run, 0, 0, 8)?;
    let s = send(rt, s, run, 0, 1, 8)?;
    let s = add(rt, s, run, 0, 8)?;
    let s = send(rt, s, run, 0, 1, 8)?;
    let s = lose(rt, s, run, 3)?;
    let s = send(rt, s, run, 0, 1, 8)?;
    show(rt, s, run)
}

fn again_refused(rt: &impl Print) -> io::Result<()> {
    println!(rt; "5 before 9 before 10: every slot occupied, copied at M")?;
    let run = THREE_SITES;
    let s = again(rt, all_waiting(), run, 8)?;
    let s = again(rt, s, run, 0)?;
    let s = lose(rt, s, run, 3)?;
    let s = again(rt, s, run, 3)?;
    let s = again(rt, s, run, 0)?;
    show(rt, s, run)
}

// Site 0 is full too, since a free slot names site 0: what is in it must not be asked for room.
fn deliver_refused(rt: &impl Print) -> io::Result<()> {
    println!(rt; "5 before 8 before 10: sites 0 and 2 full, absorbed at M; 12 sites, capacity 2")?;
    let run = TWELVE_SITES;
    let s = with_entry(all_waiting(), 0, 8, 1);
    let s = with_entry(s, 1, 9, 1);
    let s = with_entry(s, 4, 8, 1);
    let s = with_entry(s, 5, 9, 1);
    let s = deliver(rt, s, run, 8)?;
    let s = deliver(rt, s, run, 0)?;
    let s = lose(rt, s, run, 0)?;
    let s = deliver(rt, s, run, 0)?;
    show(rt, s, run)
}

fn lengths_run_out(rt: &impl Print) -> io::Result<()> {
    println!(rt; "3 before 7, and lengths at M: 1 site, capacity 24")?;
    let run = ONE_SITE;
    let s = with_entry(fresh_kept(0), 0, 7, M);
    let s = with_entry(s, 1, 8, M - 1);
    let s = remove(rt, s, run, 1, 7)?;
    let s = remove(rt, s, run, 0, 7)?;
    let s = add(rt, s, run, 0, 7)?;
    let s = remove(rt, s, run, 0, 9)?;
    let s = remove(rt, s, run, 0, 8)?;
    let s = add(rt, s, run, 0, 8)?;
    let s = remove(rt, s, run, 0, 8)?;
    show(rt, s, run)
}

fn no_room_to_add(rt: &impl Print) -> io::Result<()> {
    println!(rt; "3 before 8: a full table, and what it still takes; 12 sites, capacity 2")?;
    let run = TWELVE_SITES;
    let s = add(rt, fresh_kept(0), run, 11, 7)?;
    let s = add(rt, s, run, 11, 9)?;
    let s = add(rt, s, run, 12, 8)?;
    let s = add(rt, s, run, 11, 8)?;
    let s = remove(rt, s, run, 11, 8)?;
    let s = add(rt, s, run, 11, 9)?;
    let s = remove(rt, s, run, 11, 7)?;
    let s = add(rt, s, run, 11, 7)?;
    let s = query(rt, s, run, 11, 8)?;
    show(rt, s, run)
}

// The 7 of site 1 is newer, and is not taken over by a merge that has no room for the 8.
fn merge_refused(rt: &impl Print) -> io::Result<()> {
    println!(rt; "3 before 4, and a merge with no room writes nothing; 12 sites, capacity 2")?;
    let run = TWELVE_SITES;
    let s = with_entry(fresh_kept(0), 0, 7, 2);
    let s = with_entry(s, 1, 9, 1);
    let s = with_entry(s, 2, 7, 3);
    let s = with_entry(s, 3, 8, 3);
    let s = merge(rt, s, run, 12, 12)?;
    let s = merge(rt, s, run, 1, 1)?;
    let s = merge(rt, s, run, 1, 0)?;
    show(rt, s, run)
}

pub(crate) fn refusals(rt: &impl Print) -> io::Result<()> {
    sizes_state_site(rt)?;
    send_refused(rt)?;
    again_refused(rt)?;
    deliver_refused(rt)?;
    lengths_run_out(rt)?;
    no_room_to_add(rt)?;
    merge_refused(rt)
}
