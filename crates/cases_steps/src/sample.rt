// The sample run of the report program, its 17 steps.
use crate::each_step::{add, again, deliver, lose, merge, query, remove, send};
use crate::made::THREE_SITES;
use crate::show::show;
use kept::{Kept, fresh_kept};
use rules::Run;
use std::io;

fn sample_first(rt: &impl Print, run: Run) -> io::Result<Kept> {
    let s = fresh_kept(0);
    let s = add(rt, s, run, 0, 7)?;
    let s = add(rt, s, run, 1, 7)?;
    let s = send(rt, s, run, 1, 2, 7)?;
    let s = deliver(rt, s, run, 0)?;
    let s = remove(rt, s, run, 0, 7)?;
    let s = remove(rt, s, run, 1, 7)?;
    let s = remove(rt, s, run, 2, 7)?;
    add(rt, s, run, 1, 7)
}

fn sample_rest(rt: &impl Print, before: Kept, run: Run) -> io::Result<Kept> {
    let s = send(rt, before, run, 0, 1, 7)?;
    let s = again(rt, s, run, 0)?;
    let s = deliver(rt, s, run, 1)?;
    let s = lose(rt, s, run, 0)?;
    let s = deliver(rt, s, run, 0)?;
    let s = merge(rt, s, run, 1, 2)?;
    let s = remove(rt, s, run, 2, 7)?;
    let s = query(rt, s, run, 1, 7)?;
    query(rt, s, run, 2, 7)
}

pub(crate) fn sample(rt: &impl Print) -> io::Result<()> {
    println!(rt; "the sample run: 3 sites, capacity 8")?;
    let run = THREE_SITES;
    let s = sample_first(rt, run)?;
    let s = sample_rest(rt, s, run)?;
    show(rt, s, run)
}
