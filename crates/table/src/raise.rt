// One id's length raised: by an add, by a remove, or by an update that arrives.
ghost use Rattle.std.specs.Prelude.{◌≡◌, ◌+◌, ◌*◌, ◌≤◌, length as size};
ghost use Rattle.rules.specs.meaning.Lengths.{M, join};
ghost use Rattle.rules.specs.meaning.Table.{SoundTable, held, length_of, held_with, raised};
ghost use Rattle.rules.specs.meaning.Operations.{as_answer, crowded, raise_answer, raise_table, add_answer, add_table, absorb_answer, absorb_table, remove_answer, remove_table};

use crate::find::{length_word, lookup, rank};
use crate::judge::held;
use lengths::{after_add, after_remove, join};
use rules::Refusal;

// An id without an entry is given one: the entries with larger ids move on by one place. They move within the part that begins with them: of that the
// compiler makes one call of memmove, which it does not where the same words move within the whole table.
fn insert(table: &mut [u64], used: usize, id: u64, length: u64)
    requires sound_table { SoundTable table.old }
    requires used_value { used ≡ held table.old }
    requires used_bound { 2 * used + 2 ≤ size table.old }
    requires id_value { (length_of table.old id ≡ 0) × (1 ≤ length) }
    ensures { table.new ≡ raised table.old id length }
{
    let from = 2 * rank(table, id);
    table[from..].copy_within(..2 * used - from, 2);
    table[from] = id;
    table[from + 1] = length;
}

// The same where there is room, and refused where every place is used.
fn enter(table: &mut [u64], id: u64, length: u64) -> Result<u64, Refusal>
    requires sound_table { SoundTable table.old }
    requires id_value { (length_of table.old id ≡ 0) × (1 ≤ length) }
    ensures value { as_answer result ≡ raise_answer table.old id length }
    ensures table_after { table.new ≡ raise_table table.old id length }
{
    let used = held(table);
    if table.len() / 2 <= used {
        return Err(Refusal::NoRoom);
    }
    insert(table, used, id, length);
    Ok(length)
}

// The id is listed: an even length rises by 1, an odd one stays. Refused only where the id is absent and every place is used.
pub fn add(table: &mut [u64], id: u64) -> Result<u64, Refusal>
    requires { SoundTable table.old }
    ensures value { as_answer result ≡ add_answer table.old id }
    ensures table_after { table.new ≡ add_table table.old id }
{
    let Some(at) = length_word(table, id) else {
        return enter(table, id, 1);
    };
    let after = after_add(table[at]);
    table[at] = after;
    Ok(after)
}

// The id is no longer listed: an odd length rises by 1, an even one stays, and an id never held gets no entry.
#[tactic(auto, using(crate::proofs::Raising::found))]
pub fn remove(table: &mut [u64], id: u64) -> Result<u64, Refusal>
    requires { SoundTable table.old }
    ensures value { as_answer result ≡ remove_answer M table.old id }
    ensures table_after { table.new ≡ remove_table M table.old id }
{
    let Some(i) = lookup(table, id) else {
        return Ok(0);
    };
    let unlisted = after_remove(table[2 * i + 1])?;
    table[2 * i + 1] = unlisted;
    Ok(unlisted)
}

// One entry is joined in, as a delivered update is. Refused only where it needs a new place and every place is used.
pub fn absorb(table: &mut [u64], id: u64, length: u64) -> Result<u64, Refusal>
    requires { SoundTable table.old }
    ensures value { as_answer result ≡ absorb_answer table.old id length }
    ensures table_after { table.new ≡ absorb_table table.old id length }
{
    match length_word(table, id) {
        Some(at) => {
            let after = join(table[at], length);
            table[at] = after;
            Ok(after)
        }
        None if length == 0 => Ok(0),
        None => enter(table, id, length),
    }
}

// Whether `absorb` would be refused, with nothing written: for a caller that has something else to test before it absorbs.
pub fn lacks_room(table: &[u64], id: u64, length: u64) -> bool
    requires { SoundTable table.now }
    ensures { result ≡ crowded table.now (held_with table.now id (join (length_of table.now id) length)) }
{
    match length_word(table, id) {
        Some(_) => false,
        None => length != 0 && table.len() / 2 <= held(table),
    }
}
