// What accepted steps make of a run, and what refused ones leave.
use crate::each_step::{add, again, deliver, lose, merge, query, remove, send};
use crate::made::{EIGHT_SITES, THREE_SITES, TWELVE_SITES, with_entry};
use crate::show::show;
use kept::{Kept, fresh_kept};
use rules::Run;
use std::io;

fn merge_accepted(rt: &impl Print) -> io::Result<()> {
    println!(rt; "a merge returns how many lengths rose; 8 sites, capacity 3")?;
    let run = EIGHT_SITES;
    let s = with_entry(fresh_kept(0), 0, 7, 2);
    let s = with_entry(s, 1, 9, 1);
    let s = with_entry(s, 3, 7, 1);
    let s = with_entry(s, 4, 8, 3);
    let s = merge(rt, s, run, 1, 0)?;
    let s = merge(rt, s, run, 1, 0)?;
    let s = merge(rt, s, run, 0, 1)?;
    show(rt, s, run)
}

fn refused_delivery_waits(rt: &impl Print) -> io::Result<()> {
    println!(rt; "a delivery with no room leaves its parcel; 12 sites, capacity 2")?;
    let run = TWELVE_SITES;
    let s = add(rt, fresh_kept(0), run, 0, 9)?;
    let s = send(rt, s, run, 0, 1, 9)?;
    let s = add(rt, s, run, 1, 7)?;
    let s = add(rt, s, run, 1, 8)?;
    let s = deliver(rt, s, run, 0)?;
    show(rt, s, run)?;
    full_table_takes_a_held_id(rt, s, run)
}

fn full_table_takes_a_held_id(rt: &impl Print, before: Kept, run: Run) -> io::Result<()> {
    println!(rt; "an update of an id that the full table holds is taken")?;
    let s = add(rt, before, run, 0, 7)?;
    let s = remove(rt, s, run, 0, 7)?;
    let s = send(rt, s, run, 0, 1, 7)?;
    let s = deliver(rt, s, run, 1)?;
    let s = lose(rt, s, run, 0)?;
    show(rt, s, run)
}

fn two_lengths_under_way(rt: &impl Print, run: Run) -> io::Result<Kept> {
    let s = add(rt, fresh_kept(0), run, 0, 7)?;
    let s = send(rt, s, run, 0, 1, 7)?;
    let s = again(rt, s, run, 0)?;
    let s = again(rt, s, run, 1)?;
    let s = remove(rt, s, run, 0, 7)?;
    send(rt, s, run, 0, 1, 7)
}

fn stale_and_freed(rt: &impl Print) -> io::Result<()> {
    println!(rt; "a stale delivery counts, and freed slots are used again: 3 sites, capacity 8")?;
    let run = THREE_SITES;
    let s = two_lengths_under_way(rt, run)?;
    let s = deliver(rt, s, run, 3)?;
    let s = deliver(rt, s, run, 1)?;
    let s = lose(rt, s, run, 0)?;
    let s = send(rt, s, run, 0, 2, 7)?;
    let s = again(rt, s, run, 2)?;
    let s = again(rt, s, run, 0)?;
    show(rt, s, run)
}

// Id 0 is an ordinary id, and a number far outside must not wrap into the run.
fn ends_of_the_numbers(rt: &impl Print) -> io::Result<()> {
    println!(rt; "the smallest and the largest numbers: 3 sites, capacity 8")?;
    let run = THREE_SITES;
    let s = add(rt, fresh_kept(0), run, 0, u64::MAX)?;
    let s = add(rt, s, run, 0, 0)?;
    let s = send(rt, s, run, 0, 1, 0)?;
    let s = deliver(rt, s, run, 0)?;
    let s = merge(rt, s, run, 0, 2)?;
    let s = query(rt, s, run, u64::MAX, 7)?;
    let s = send(rt, s, run, 0, u64::MAX, 0)?;
    let s = again(rt, s, run, u64::MAX)?;
    let s = lose(rt, s, run, 9223372036854775808)?;
    show(rt, s, run)
}

pub(crate) fn outcomes(rt: &impl Print) -> io::Result<()> {
    merge_accepted(rt)?;
    refused_delivery_waits(rt)?;
    stale_and_freed(rt)?;
    ends_of_the_numbers(rt)
}
