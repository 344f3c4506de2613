// Short inputs, each with its whole report.
use crate::show::whole;
use std::io;

// A last piece is refused where it has a byte or more, and is never run.
fn edges(rt: &impl Print, out: &mut [u8]) -> io::Result<()> {
    whole(rt, "-- no input\n", b"", out)?;
    whole(rt, "-- one line end\n", b"\n", out)?;
    whole(rt, "-- one byte\n", b"s", out)?;
    whole(
        rt,
        "-- an unended last line\n",
        b"step=add node=0 id=7\nstep=query node=0 id=7",
        out,
    )
}

// Lines that are no step lines.
fn malformed(rt: &impl Print, out: &mut [u8]) -> io::Result<()> {
    whole(
        rt,
        "-- empty lines\n",
        b"\n\nstep=query node=2 id=5\n\n",
        out,
    )?;
    whole(
        rt,
        "-- carriage returns\n",
        b"step=add node=0 id=7\r\nstep=query node=0 id=7\r\n",
        out,
    )?;
    let text = b"step=add node=0 id=18446744073709551615
step=query node=0 id=18446744073709551615
step=query node=0 id=18446744073709551616
step=query node=0 id=00
step=query node=00 id=0
step=query node=00000000000000000000 id=000000000000000000000
step=query node=0 id=0 
 step=query node=0 id=0
";
    whole(rt, "-- numbers\n", text, out)
}

// Every refusal that a short input reaches.
fn refusals(rt: &impl Print, out: &mut [u8]) -> io::Result<()> {
    let text = b"step=add node=3 id=1
step=send from=0 to=0 id=1
step=deliver slot=0
step=send from=0 to=1 id=1
step=add node=0 id=0
step=add node=0 id=1
step=add node=0 id=2
step=add node=0 id=3
step=add node=0 id=4
step=add node=0 id=5
step=add node=0 id=6
step=add node=0 id=7
step=add node=0 id=8
step=send from=0 to=1 id=0
step=again slot=0
step=again slot=0
step=again slot=0
step=again slot=0
step=again slot=0
step=again slot=0
step=again slot=0
step=again slot=0
step=merge from=0 to=1
step=merge from=1 to=1
step=lose slot=7
step=lose slot=8
";
    whole(rt, "-- refusals\n", text, out)
}

// The paper's Table 1: the sites A, B, C are 0, 1, 2 and the element a is id 1. A query follows each step that makes a state of the table.
fn table_1(rt: &impl Print, out: &mut [u8]) -> io::Result<()> {
    let text = b"step=query node=0 id=1
step=query node=1 id=1
step=query node=2 id=1
step=add node=0 id=1
step=query node=0 id=1
step=send from=0 to=1 id=1
step=add node=1 id=1
step=query node=1 id=1
step=send from=1 to=0 id=1
step=send from=1 to=2 id=1
step=deliver slot=2
step=query node=2 id=1
step=remove node=1 id=1
step=query node=1 id=1
step=send from=1 to=2 id=1
step=remove node=2 id=1
step=query node=2 id=1
step=send from=2 to=1 id=1
step=deliver slot=1
step=query node=0 id=1
step=deliver slot=0
step=query node=1 id=1
step=remove node=0 id=1
step=query node=0 id=1
step=send from=0 to=1 id=1
step=deliver slot=2
step=query node=2 id=1
step=deliver slot=0
step=query node=1 id=1
step=add node=1 id=1
step=query node=1 id=1
step=send from=1 to=2 id=1
step=deliver slot=3
step=query node=1 id=1
step=deliver slot=0
step=query node=2 id=1
step=remove node=2 id=1
step=query node=2 id=1
";
    whole(rt, "-- Table 1\n", text, out)
}

pub(crate) fn texts(rt: &impl Print, out: &mut [u8]) -> io::Result<()> {
    edges(rt, out)?;
    malformed(rt, out)?;
    refusals(rt, out)?;
    table_1(rt, out)
}
