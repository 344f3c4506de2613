// Inputs at the limit and one byte past it.
use crate::show::{two_ends, whole};
use rules::INPUT_MAX;
use std::io;

// A text over and over until the buffer is full.
fn repeat(text: &[u8], buffer: &mut [u8]) {
    for (to, from) in buffer.iter_mut().zip(text.iter().cycle()) {
        *to = *from;
    }
}

fn past_the_limit(rt: &impl Print, out: &mut [u8]) -> io::Result<()> {
    let mut input = [b'\n'; INPUT_MAX + 1];
    whole(rt, "-- 32,769 line ends\n", &input, out)?;
    repeat(b"step=query node=0 id=0\n", &mut input);
    whole(rt, "-- 32,769 bytes of queries\n", &input, out)
}

fn at_the_limit(rt: &impl Print, out: &mut [u8]) -> io::Result<()> {
    let mut input = [b'\n'; INPUT_MAX];
    two_ends(rt, "-- 32,768 line ends\n", &input, out)?;
    repeat(b"step=query node=0 id=0\n", &mut input);
    two_ends(rt, "-- 32,768 bytes of queries\n", &input, out)?;
    let piece = [b's'; INPUT_MAX];
    two_ends(rt, "-- 32,768 bytes in one piece\n", &piece, out)
}

pub(crate) fn long_inputs(rt: &impl Print, out: &mut [u8]) -> io::Result<()> {
    past_the_limit(rt, out)?;
    at_the_limit(rt, out)
}
