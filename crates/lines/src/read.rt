// A whole line, read.
ghost use Rattle.std.specs.Prelude.{◌≡◌};
ghost use Rattle.rules.specs.meaning.Lines.{numbers_of};

use crate::field::read_field;
use crate::kind::{has_id, has_second, read_kind};
use crate::number::read_number;
use rules::Numbers;

// The four numbers of a line, or that the text is none. A byte behind the last number makes it none.
pub fn read_line(line: &[u8]) -> Option<Numbers>
    ensures { result ≡ numbers_of line.now }
{
    let (kind, a) = read_kind(line)?;
    let (first, b) = read_number(line, a)?;
    let (second, d) = read_field(has_second(kind), b" to=", line, b)?;
    let (id, e) = read_field(has_id(kind), b" id=", line, d)?;
    if e < line.len() {
        return None;
    }
    Some(Numbers {
        kind,
        first,
        second,
        id,
    })
}
