// The next line of the input: where it ends, and what it asks for.
ghost use Rattle.std.specs.Prelude.{◌<◌, length};
ghost use Rattle.report.specs.Ahead.{IsLineLength, Next};

use lines::read_step;
use rules::Step;

// How long the line at the front is, or none where no byte ends it.
fn line_length(rest: &[u8]) -> Option<usize>
    ensures { IsLineLength rest.now result }
{
    rest.iter().position(|b| *b == b'\n')
}

// The step of the line that begins at `start`, or none where it names none or is not ended; and where the next line begins.
// "a last piece of one byte or more without it is refused with 11"
pub(crate) fn next_line(input: &[u8], start: usize) -> (Option<Step>, usize)
    requires { start < length input.now }
    ensures { Next input.now start result.0 result.1 }
{
    let rest = &input[start..];
    match line_length(rest) {
        Some(long) => (read_step(&rest[..long]), start + long + 1),
        None => (None, input.len()),
    }
}
