// Answers packed eight to a byte, lowest bit first.
ghost use Rattle.std.specs.Prelude.{◌≡◌, ◌%◌, ◌≤◌, length, take, drop};
ghost use Rattle.rules.specs.meaning.Table.{SoundTable};
ghost use Rattle.rules.specs.meaning.Members.{bits_of};

use crate::one::is_member;

// The byte whose first answer is that of the id at `from`. Answer i is put into bit i mod 8; bits that have no id stay 0.
pub(crate) fn eight(table: &[u64], ids: &[u64], from: usize) -> u8
    requires sound_table { SoundTable table.now }
    requires first { from % 8 ≡ 0 }
    requires within { from ≤ length ids.now }
    ensures { result ≡ bits_of table.now (take 8 (drop from ids.now)) }
{
    let mut byte = 0;
    for i in from..ids.len().min(from + 8) {
        byte |= (is_member(table, ids[i]) as u8) << (i & 7);
    }
    byte
}
