// The report program: standard input to its end, or to one byte past the limit, and what is printed of it to standard output.
#![tactic(auto)]

ghost use Rattle.std.specs.Prelude.{◌≤◌, ◌<◌, length, take, IfOk};
ghost use Rattle.std.specs.Io.KnownBytes.{Consumes, IsAtEnd};

use rules::INPUT_MAX;
use std::io;
use std::io::{Read, Write};

// Reads until the buffer is full or the input ends, and answers how many bytes that is: where the reader's bytes are known, it took these from them, and where
// the buffer is not full, none is left. It stands in `cases_lines` too: `tools/check-contracts` holds every public function of a library
// to one outcome, and what a reader gives has many. How much a read gives is not known before it, so no range counts the reads.
fn read_full<R: Read>(input: &mut R, buffer: &mut [u8]) -> io::Result<usize>
    ensures bound { IfOk result (λ n. n ≤ length buffer.new) }
    ensures bytes { IfOk result (λ n. Consumes (R.remaining input.old) (R.remaining input.new) (take n buffer.new)) }
    ensures end { IfOk result (λ n. n < length buffer.new → IsAtEnd (R.remaining input.new)) }
{
    let mut done = 0;
    while done < buffer.len() {
        let n = input.read(&mut buffer[done..])?;
        if n == 0 {
            break;
        }
        done += n;
    }
    Ok(done)
}

fn main(rt: HostRuntime) -> io::Result<()> {
    // One byte more than is run.
    let mut input = [0; INPUT_MAX + 1];
    let n = read_full(&mut rt.stdin(), &mut input)?;
    let mut out = report::largest_room();
    let written = report::printed(&input[..n], &mut out);
    rt.stdout().write_all(&out[..written])
}
