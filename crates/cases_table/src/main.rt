// A table with room for three ids takes adds, removes, updates and merges, and says what became of each.
#![tactic(auto)]

ghost use Rattle.std.specs.Prelude.{OnOk};
ghost use Rattle.rules.specs.meaning.Table.{SoundTable};

use rules::Refusal;
use std::io;

// The result of a step: `key` with the value where it was accepted, else the refusal.
fn say(rt: &impl Print, key: &str, answer: Result<u64, Refusal>) -> io::Result<()> {
    match answer {
        Ok(value) => println!(rt; " {key}={value}"),
        Err(refusal) => println!(rt; " refused={}", refusal as u32),
    }
}

// The layer above a table judges it once, before a step: here, before each of them.
fn judge(words: &[u64]) -> Result<(), Refusal>
    ensures { OnOk result (SoundTable words.now) }
{
    if table::sound(words) {
        Ok(())
    } else {
        Err(Refusal::Unsound)
    }
}

fn add(words: &mut [u64], id: u64) -> Result<u64, Refusal> {
    judge(words)?;
    table::add(words, id)
}

fn remove(words: &mut [u64], id: u64) -> Result<u64, Refusal> {
    judge(words)?;
    table::remove(words, id)
}

fn absorb(words: &mut [u64], id: u64, length: u64) -> Result<u64, Refusal> {
    judge(words)?;
    table::absorb(words, id, length)
}

fn merge(words: &mut [u64], entries: &[u64]) -> Result<u64, Refusal> {
    judge(words)?;
    judge(entries)?;
    merging::merge(words, entries)
}

fn show_add(rt: &impl Print, words: &mut [u64], id: u64) -> io::Result<()> {
    print!(rt; "step=add id={id}")?;
    say(rt, "length", add(words, id))
}

fn show_remove(rt: &impl Print, words: &mut [u64], id: u64) -> io::Result<()> {
    print!(rt; "step=remove id={id}")?;
    say(rt, "length", remove(words, id))
}

fn show_absorb(rt: &impl Print, words: &mut [u64], id: u64, length: u64) -> io::Result<()> {
    print!(rt; "step=absorb id={id} arrives={length}")?;
    say(rt, "length", absorb(words, id, length))
}

fn show_merge(rt: &impl Print, words: &mut [u64], entries: &[u64]) -> io::Result<()> {
    print!(rt; "step=merge")?;
    say(rt, "rose", merge(words, entries))
}

// Each entry of the table, and how many there were.
fn show_entries(rt: &impl Print, words: &[u64]) -> io::Result<u64> {
    let mut held: u64 = 0;
    for place in 0..words.len() / 2 {
        let (id, length) = (words[2 * place], words[2 * place + 1]);
        if length != 0 {
            println!(rt; "  id={id} length={length} present={}", length % 2)?;
            held += 1;
        }
    }
    Ok(held)
}

// The entries, then how many the table holds and how many of them are listed.
fn show(rt: &impl Print, words: &[u64]) -> io::Result<()> {
    let held = show_entries(rt, words)?;
    println!(rt; "  held={held} shown={}", table::shown(words))
}

fn main(rt: HostRuntime) -> io::Result<()> {
    let mut site = [0u64; 6];
    println!(rt; "a site with room for 3 ids")?;
    show_add(&rt, &mut site, 7)?;
    show_add(&rt, &mut site, 7)?;
    show_remove(&rt, &mut site, 7)?;
    show_remove(&rt, &mut site, 8)?;
    show_add(&rt, &mut site, 9)?;
    show(&rt, &site)?;
    println!(rt; "another site's table, {{7: 1, 8: 3}}, is merged in")?;
    let other = [7u64, 1, 8, 3];
    show_merge(&rt, &mut site, &other)?;
    show_merge(&rt, &mut site, &other)?;
    show(&rt, &site)?;
    println!(rt; "the table is full")?;
    show_add(&rt, &mut site, 5)?;
    show_absorb(&rt, &mut site, 5, 1)?;
    let more = [5u64, 1, 7, 9];
    show_merge(&rt, &mut site, &more)?;
    show(&rt, &site)?;
    println!(rt; "a late update, and a newer one")?;
    show_absorb(&rt, &mut site, 8, 2)?;
    show_absorb(&rt, &mut site, 8, 4)?;
    show(&rt, &site)?;
    println!(rt; "the lengths run out")?;
    let mut worn = [7u64, 4294967294];
    show_add(&rt, &mut worn, 7)?;
    show_remove(&rt, &mut worn, 7)?;
    show_add(&rt, &mut worn, 7)?;
    show(&rt, &worn)?;
    println!(rt;
        "words that are no table: equal ids, a length above the largest, a word too many"
    )?;
    let mut twice = [7u64, 1, 7, 2];
    show_add(&rt, &mut twice, 7)?;
    let mut above = [7u64, 4294967296];
    show_remove(&rt, &mut above, 7)?;
    let mut odd = [7u64, 1, 0];
    show_merge(&rt, &mut odd, &other)?;
    show_merge(&rt, &mut site, &odd)
}
