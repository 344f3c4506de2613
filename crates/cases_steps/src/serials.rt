// Serials on links: that they wrap, what a delivery hears, what cannot be ordered, and which entries are looked at.
use crate::each_step::{add, again, deliver, query, remove, send};
use crate::made::{
    THREE_SITES, TWELVE_SITES, pair_of, parcel_to, with_entry, with_ledger, with_pair, with_parcel,
};
use crate::show::show;
use kept::fresh_kept;
use rules::M;
use std::io;

fn wrapped(rt: &impl Print) -> io::Result<()> {
    println!(rt;
        "serials that wrap: the first is 4294967295; the newest arrives first, then its copy, then the older one"
    )?;
    let run = THREE_SITES;
    let s = add(rt, fresh_kept(u32::MAX), run, 0, 7)?;
    let s = send(rt, s, run, 0, 1, 7)?;
    let s = remove(rt, s, run, 0, 7)?;
    let s = send(rt, s, run, 0, 1, 7)?;
    let s = again(rt, s, run, 1)?;
    let s = send(rt, s, run, 0, 1, 9)?;
    show(rt, s, run)?;
    let s = deliver(rt, s, run, 1)?;
    let s = deliver(rt, s, run, 2)?;
    let s = deliver(rt, s, run, 0)?;
    show(rt, s, run)
}

fn half_apart(rt: &impl Print) -> io::Result<()> {
    println!(rt;
        "15 before 8 before 10: a serial half of all away from the newest heard; site 1 full, absorbed at M; 12 sites, capacity 2"
    )?;
    let run = TWELVE_SITES;
    let s = with_entry(fresh_kept(0), 2, 8, 1);
    let s = with_entry(s, 3, 9, 1);
    let s = with_parcel(s, 0, parcel_to(1, 7, 1));
    let s = with_ledger(s, M, 1, M, 0);
    let far = with_pair(s, 1, pair_of(1, 2147483648, 0, 0));
    show(rt, deliver(rt, far, run, 0)?, run)?;
    let near = with_pair(s, 1, pair_of(1, 2147483649, 0, 0));
    show(rt, deliver(rt, near, run, 0)?, run)
}

fn heard(rt: &impl Print) -> io::Result<()> {
    println!(rt;
        "one less away it is newer, one more away it is older; with nothing heard any serial is taken"
    )?;
    let run = THREE_SITES;
    let s = with_parcel(fresh_kept(0), 0, parcel_to(1, 7, 1));
    let s = with_ledger(s, 1, 0, 0, 0);
    let older = with_pair(s, 1, pair_of(1, 2147483649, 0, 0));
    show(rt, deliver(rt, older, run, 0)?, run)?;
    let newer = with_pair(s, 1, pair_of(1, 2147483647, 0, 0));
    show(rt, deliver(rt, newer, run, 0)?, run)?;
    show(rt, deliver(rt, s, run, 0)?, run)
}

fn damaged_links(rt: &impl Print) -> io::Result<()> {
    let run = THREE_SITES;
    println!(rt; "damaged: something heard under the mark of nothing heard")?;
    let s = with_pair(fresh_kept(0), 33, pair_of(0, 1, 1, 7));
    show(rt, query(rt, s, run, 0, 7)?, run)?;
    println!(rt;
        "the same where no link of the run is: a site to itself, and a site outside the run"
    )?;
    let s = with_pair(fresh_kept(0), 17, pair_of(0, 1, 1, 7));
    let s = with_pair(s, 3, pair_of(0, 1, 1, 7));
    show(rt, query(rt, s, run, 0, 7)?, run)
}

pub(crate) fn serials(rt: &impl Print) -> io::Result<()> {
    wrapped(rt)?;
    half_apart(rt)?;
    heard(rt)?;
    damaged_links(rt)
}
