// The pieces of a report's lines: a name with its number, and the line's end.
ghost use Rattle.std.specs.Prelude.{◌+◌, ◌≤◌, [], ◌∷◌, ◌++◌, length};
ghost use Rattle.rules.specs.meaning.Number.{digits};
ghost use Rattle.rules.specs.meaning.Reports.{line_end, count_line};
ghost use Rattle.report.specs.Laid.{Laid};

use lines::{write_number, write_text};

// A name and the number behind it.
pub(crate) fn write_pair(out: &mut [u8], place: usize, name: &[u8], n: u64) -> usize
    requires { place + length (name.now ++ digits n) ≤ length out.old }
    ensures { Laid out.old place (name.now ++ digits n) result out.new }
{
    let next = write_text(out, place, name);
    write_number(out, next, n)
}

fn write_end(out: &mut [u8], place: usize) -> usize
    requires { place + 1 ≤ length out.old }
    ensures { Laid out.old place (line_end ∷ []) result out.new }
{
    out[place] = b'\n';
    place + 1
}

// The same with the line's end: the last pair of every line.
pub(crate) fn write_count(out: &mut [u8], place: usize, name: &[u8], n: u64) -> usize
    requires { place + length (count_line name.now n) ≤ length out.old }
    ensures { Laid out.old place (count_line name.now n) result out.new }
{
    let next = write_pair(out, place, name, n);
    write_end(out, next)
}
