// Reads lines, valid and damaged, and says of each the refusal, or the four numbers and the line written back from them.
#![tactic(auto)]

ghost use Rattle.std.specs.Prelude.{◌≤◌, ◌<◌, length, take, IfOk};
ghost use Rattle.std.specs.Io.KnownBytes.{Consumes, IsAtEnd};

use rules::Numbers;
use std::io;
use std::io::Read;

// Reads until the buffer is full or the input ends, and answers how many bytes that is: where the reader's bytes are known, it took these from them, and where
// the buffer is not full, none is left. It stands in `gantry_report` too: `tools/check-contracts` holds every public function of a library
// to one outcome, and what a reader gives has many. How much a read gives is not known before it, so no range counts the reads.
fn read_full<R: Read>(input: &mut R, buffer: &mut [u8]) -> io::Result<usize>
    ensures bound { IfOk result (λ n. n ≤ length buffer.new) }
    ensures bytes { IfOk result (λ n. Consumes (R.remaining input.old) (R.remaining input.new) (take n buffer.new)) }
    ensures end { IfOk result (λ n. n < length buffer.new → IsAtEnd (R.remaining input.new)) }
{
    let mut done = 0;
    while done < buffer.len() {
        let n = input.read(&mut buffer[done..])?;
        if n == 0 {
            break;
        }
        done += n;
    }
    Ok(done)
}

fn main(rt: HostRuntime) -> io::Result<()> {
    let mut input = [0; 65536];
    let n = read_full(&mut rt.stdin(), &mut input)?;
    each_line(&rt, &input[..n])
}

// What stands behind the last line end is no line.
fn each_line(rt: &impl Print, input: &[u8]) -> io::Result<()> {
    let mut number: u64 = 1;
    let mut start = 0;
    for (i, b) in input.iter().enumerate() {
        if *b == b'\n' {
            one_line(rt, number, &input[start..i])?;
            number += 1;
            start = i + 1;
        }
    }
    Ok(())
}

// The refusal is that of the reader that C calls; the numbers are those of the reader that Rattle calls.
fn one_line(rt: &impl Print, number: u64, line: &[u8]) -> io::Result<()> {
    print!(rt; "line={number}")?;
    let mut area = [0u8; 32];
    if let Err(refusal) = lines::read_into(line, &mut area) {
        print!(rt; " refused={}", refusal as u32)?;
    }
    if let Some(numbers) = lines::read_line(line) {
        written(rt, numbers)?;
    }
    println!(rt)
}

fn written(rt: &impl Print, numbers: Numbers) -> io::Result<()> {
    let Numbers {
        kind,
        first,
        second,
        id,
    } = numbers;
    print!(rt; " kind={kind} first={first} second={second} id={id} ")?;
    let mut buffer = [0u8; 83];
    rt.write_all(lines::write_line(kind, first, second, id, &mut buffer))
}
