// TextCases::writer: the text of what a root holds, into so many bytes '.', which no text has. S = 8.
use case_runs::start::{empty, p5};
use case_runs::state::State;
use model::Half;
use std::io;

// A root that names the object at word 1.
fn object(free: usize, heap: [u32; 17]) -> State<17, 1> {
    State::new(Half::A, free, heap, [4])
}

// One of two fields, the first 1.
fn pair(second: u32) -> State<17, 1> {
    object(4, [0, 4, 3, second, 0, 0, 0, 0, 0, 0, 0, 0, 0, 0, 0, 0, 0])
}

fn itself(rt: &impl Print) -> io::Result<()> {
    p5([24, 12]).write(rt, "text, () into 2 bytes", 0, &[b'.'; 2])?;
    p5([24, 12]).write(rt, "text, () into 5 bytes", 0, &[b'.'; 5])?;
    p5([24, 12]).write(rt, "text, () into 1 byte", 0, &[b'.'; 1])?;
    p5([24, 12]).write(rt, "text, of itself into 63 bytes", 1, &[b'.'; 63])?;
    p5([24, 12]).write(rt, "text, of itself into 64 bytes", 1, &[b'.'; 64])?;
    p5([24, 12]).write(rt, "text, of itself into 65 bytes", 1, &[b'.'; 65])?;
    p5([24, 12]).write(rt, "text, of itself into 400 bytes", 1, &[b'.'; 400])
}

fn no_text(rt: &impl Print) -> io::Result<()> {
    pair(0).write(rt, "text, (1,null) into 2 bytes", 0, &[b'.'; 2])?;
    pair(0).write(rt, "text, (1,null) into 3 bytes", 0, &[b'.'; 3])?;
    empty([0]).write(rt, "text, null into no byte", 0, &[])?;
    empty([16777216]).write(rt, "text, a code word", 0, &[b'.'; 9])?;
    let raw = [0, 0x80000002, 7, 0, 0, 0, 0, 0, 0, 0, 0, 0, 0, 0, 0, 0, 0];
    object(3, raw).write(rt, "text, an untraced object", 0, &[b'.'; 9])?;
    empty([14]).write(rt, "text, no object", 0, &[b'.'; 9])?;
    empty([1]).write(rt, "text, no root", 1, &[b'.'; 9])
}

fn integers(rt: &impl Print) -> io::Result<()> {
    empty([1]).write(rt, "text, 0", 0, &[b'.'; 2])?;
    empty([15]).write(rt, "text, 7", 0, &[b'.'; 2])?;
    empty([0xfffffffd]).write(rt, "text, -2", 0, &[b'.'; 3])?;
    empty([0x7fffffff]).write(rt, "text, the largest integer", 0, &[b'.'; 10])?;
    empty([0x80000001]).write(rt, "text, the smallest integer", 0, &[b'.'; 11])?;
    empty([21]).write(rt, "text, 10 into 1 byte", 0, &[b'.'; 1])
}

fn tuples(rt: &impl Print) -> io::Result<()> {
    let one = [0, 2, 12, 0, 0, 0, 0, 0, 0, 0, 0, 0, 0, 0, 0, 0, 0];
    object(4, one).write(rt, "text, one field", 0, &[b'.'; 6])?;
    pair(0xfffffffd).write(rt, "text, two fields", 0, &[b'.'; 8])?;
    let shared = [0, 4, 16, 16, 2, 7, 0, 0, 0, 0, 0, 0, 0, 0, 0, 0, 0];
    object(6, shared).write(rt, "text, one object twice", 0, &[b'.'; 13])
}

pub fn cases(rt: &impl Print) -> io::Result<()> {
    itself(rt)?;
    no_text(rt)?;
    integers(rt)?;
    tuples(rt)
}
