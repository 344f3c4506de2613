// Entries joined into a table from a slice of their own.
ghost use Rattle.std.specs.Prelude.{◌≡◌, get_or};
ghost use Rattle.rules.specs.meaning.Table.{SoundTable, merged};
ghost use Rattle.rules.specs.meaning.Operations.{as_answer, merge_answer, merge_table};
ghost use Rattle.merging.specs.Walks.{Joining};

use crate::turns::{Left, slide, turn};
use rules::Refusal;
use tally::{FEW, count, told};

// The table is filled from the back until no entry is left to join in: what is left of the table then stands in its place.
// Where few entries go into a long table, all that is above the next one moves on first, which is foreseen. How far a turn comes
// is not known before it, so no range counts the turns.
fn fill_by<const SPARSE: bool>(table: &mut [u64], entries: &[u64], left: Left)
    requires { Joining table.old entries.now (λ q. get_or table.old q 0) left.own left.others left.place }
    ensures { table.new ≡ merged table.old entries.now }
{
    let mut left = left;
    while 0 < left.others {
        let id = entries[2 * left.others - 2];
        let length = entries[2 * left.others - 1];
        if SPARSE {
            left = slide(table, left, id);
        }
        left = turn(table, left, id, length);
    }
}

// Which of the two it is, is asked once.
fn fill(table: &mut [u64], entries: &[u64], left: Left)
    requires { Joining table.old entries.now (λ q. get_or table.old q 0) left.own left.others left.place }
    ensures { table.new ≡ merged table.old entries.now }
{
    if left.others <= left.own / FEW {
        fill_by::<true>(table, entries, left);
    } else {
        fill_by::<false>(table, entries, left);
    }
}

// Each entry of another table is joined in, all or none: for each id the larger length. The answer's value is the number of lengths
// that rose; where none does, nothing is written.
pub fn merge(table: &mut [u64], entries: &[u64]) -> Result<u64, Refusal>
    requires sound_table { SoundTable table.old }
    requires sound_table_2 { SoundTable entries.now }
    ensures value { as_answer result ≡ merge_answer table.old entries.now }
    ensures table_after { table.new ≡ merge_table table.old entries.now }
{
    let comes = count(table, entries);
    let rose = told(comes, table.len() / 2)?;
    if 0 < rose {
        fill(table, entries, Left::from(comes));
    }
    Ok(rose)
}
