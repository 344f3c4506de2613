// Many ids asked of one table.
ghost use Rattle.std.specs.Prelude.{◌≡◌, ◌≤◌, length};
ghost use Rattle.rules.specs.meaning.Table.{SoundTable};
ghost use Rattle.rules.specs.meaning.Put.{put};
ghost use Rattle.rules.specs.meaning.Refusals.{number_in};
ghost use Rattle.rules.specs.meaning.Members.{bytes_for, answers_of, Answered};

use crate::bytes::eight;
use crate::judge::{bytes_for, refusal_of};
use rules::Refusal;

// Each byte of answers is stored once; the bytes behind them are not touched.
fn fill(table: &[u64], ids: &[u64], answers: &mut [u8])
    requires { SoundTable table.now × (length ids.now ≤ 4096) × (bytes_for (length ids.now) ≤ length answers.old) }
    ensures { answers.new ≡ put answers.old 0 (answers_of table.now ids.now) }
{
    for i in 0..bytes_for(ids.len()) {
        answers[i] = eight(table, ids, i << 3);
    }
}

// Answer i in bit i mod 8 of byte i / 8. The table is judged once, and each id is looked up once.
#[tactic(auto, using(crate::proofs::Refusing::verdicts))]
pub fn members(table: &[u64], ids: &[u64], answers: &mut [u8]) -> Result<(), Refusal>
    ensures { Answered table.now ids.now answers.old (number_in result) answers.new }
{
    refusal_of(table, ids.len(), answers.len())?;
    fill(table, ids, answers);
    Ok(())
}
