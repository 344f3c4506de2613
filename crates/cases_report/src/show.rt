// What is printed of an input.
use std::io;

// All of it, under a name.
pub(crate) fn whole(rt: &impl Print, name: &str, input: &[u8], out: &mut [u8]) -> io::Result<()> {
    print!(rt; "{name}")?;
    let n = report::printed(input, out);
    rt.write_all(&out[..n])
}

// Its length, its checksum and its two ends.
pub(crate) fn two_ends(
    rt: &impl Print,
    name: &str,
    input: &[u8],
    out: &mut [u8],
) -> io::Result<()> {
    print!(rt; "{name}")?;
    let n = report::printed(input, out);
    show_ends(rt, &out[..n])
}

// A number that tells texts apart well enough for a test.
fn checksum(text: &[u8]) -> u64 {
    let mut s: u64 = 0;
    for b in text {
        s = (s * 31 + u64::from(*b)) % 1000003;
    }
    s
}

fn show_ends(rt: &impl Print, text: &[u8]) -> io::Result<()> {
    let n = text.len();
    println!(rt; "bytes={n} sum={}", checksum(text))?;
    let k = n.min(200);
    rt.write_all(&text[..k])?;
    print!(rt; "\n..\n")?;
    rt.write_all(&text[n - k..])
}
