// The eight steps: each is shown in the form of a step line, run, and its answer shown behind it.
use kept::Kept;
use rules::{Refusal, Run, Step};
use std::io;

fn say(rt: &impl Print, answer: Result<u64, Refusal>) -> io::Result<()> {
    match answer {
        Ok(value) => println!(rt; " value={value}"),
        Err(refusal) => println!(rt; " refused={}", refusal as u32),
    }
}

// The form of a step line.
fn show_step(rt: &impl Print, step: Step) -> io::Result<()> {
    match step {
        Step::Add { site, id } => print!(rt; "step=add node={site} id={id}"),
        Step::Remove { site, id } => print!(rt; "step=remove node={site} id={id}"),
        Step::Query { site, id } => print!(rt; "step=query node={site} id={id}"),
        Step::Send { from, to, id } => print!(rt; "step=send from={from} to={to} id={id}"),
        Step::Merge { from, to } => print!(rt; "step=merge from={from} to={to}"),
        Step::Deliver { slot } => print!(rt; "step=deliver slot={slot}"),
        Step::Again { slot } => print!(rt; "step=again slot={slot}"),
        Step::Lose { slot } => print!(rt; "step=lose slot={slot}"),
    }
}

// The run after the step.
fn play(rt: &impl Print, before: Kept, run: Run, step: Step) -> io::Result<Kept> {
    show_step(rt, step)?;
    let moved = kept::step_kept(before, run, step);
    say(rt, moved.answer)?;
    Ok(moved.kept)
}

pub(crate) fn add(rt: &impl Print, before: Kept, run: Run, site: u64, id: u64) -> io::Result<Kept> {
    play(rt, before, run, Step::Add { site: site, id: id })
}

pub(crate) fn remove(
    rt: &impl Print,
    before: Kept,
    run: Run,
    site: u64,
    id: u64,
) -> io::Result<Kept> {
    play(rt, before, run, Step::Remove { site: site, id: id })
}

pub(crate) fn query(
    rt: &impl Print,
    before: Kept,
    run: Run,
    site: u64,
    id: u64,
) -> io::Result<Kept> {
    play(rt, before, run, Step::Query { site: site, id: id })
}

pub(crate) fn send(
    rt: &impl Print,
    before: Kept,
    run: Run,
    from: u64,
    to: u64,
    id: u64,
) -> io::Result<Kept> {
    let step = Step::Send {
        from: from,
        to: to,
        id: id,
    };
    play(rt, before, run, step)
}

pub(crate) fn merge(
    rt: &impl Print,
    before: Kept,
    run: Run,
    from: u64,
    to: u64,
) -> io::Result<Kept> {
    play(rt, before, run, Step::Merge { from: from, to: to })
}

pub(crate) fn deliver(rt: &impl Print, before: Kept, run: Run, slot: u64) -> io::Result<Kept> {
    play(rt, before, run, Step::Deliver { slot: slot })
}

pub(crate) fn again(rt: &impl Print, before: Kept, run: Run, slot: u64) -> io::Result<Kept> {
    play(rt, before, run, Step::Again { slot: slot })
}

pub(crate) fn lose(rt: &impl Print, before: Kept, run: Run, slot: u64) -> io::Result<Kept> {
    play(rt, before, run, Step::Lose { slot: slot })
}
