// TextCases::reader: the value of a text, into a root. S = 8.
use case_runs::start::{empty, p5};
use std::io;

// Into the null root of an empty heap.
fn take<const N: usize>(rt: &impl Print, title: &str, text: &[u8; N]) -> io::Result<()> {
    empty([0]).read(rt, title, 0, text)
}

fn tuples(rt: &impl Print) -> io::Result<()> {
    take(rt, "read, ()", b"()")?;
    take(rt, "read, one field", b"{1=()}")?;
    take(rt, "read, two fields", b"(1,~2)")
}

fn integers(rt: &impl Print) -> io::Result<()> {
    take(rt, "read, 7", b"7")?;
    take(rt, "read, the largest integer", b"1073741823")?;
    take(rt, "read, the smallest integer", b"~1073741824")
}

fn no_integer(rt: &impl Print) -> io::Result<()> {
    take(rt, "read, above the largest", b"1073741824")?;
    take(rt, "read, below the smallest", b"~1073741825")?;
    take(rt, "read, ~0", b"~0")?;
    take(rt, "read, 00", b"00")
}

fn no_tuple(rt: &impl Print) -> io::Result<()> {
    take(rt, "read, one field in parentheses", b"(1)")?;
    take(rt, "read, no field in braces", b"{}")?;
    take(rt, "read, a field of number 2", b"{2=1}")?;
    take(rt, "read, two fields in braces", b"{1=1,2=2}")?;
    take(rt, "read, cut off", b"(1,")?;
    take(rt, "read, a blank behind", b"(1,2) ")?;
    take(rt, "read, no byte", b"")
}

fn no_room(rt: &impl Print) -> io::Result<()> {
    take(rt, "read, ten words", b"((),{1=3},(4,5))")?;
    take(rt, "read, nine words", b"(1,2,3,4,5,6,7,8)")
}

fn collected(rt: &impl Print) -> io::Result<()> {
    p5([24, 12]).read(rt, "read, collected for", 1, b"(1,2)")?;
    p5([24, 12]).read(rt, "read, no room in what is left", 1, b"(1,(2,3))")
}

fn in_order(rt: &impl Print) -> io::Result<()> {
    take(rt, "read, parents before children", b"(((),1),2)")?;
    take(rt, "read, children before siblings", b"({1=()},())")
}

// 64 openers, and two bytes behind them.
fn open(behind: &[u8; 2]) -> [u8; 66] {
    let mut text = [b'('; 66];
    text[64..].copy_from_slice(behind);
    text
}

fn deep(rt: &impl Print) -> io::Result<()> {
    take(rt, "read, the 65th nested", &open(b"{2"))?;
    take(rt, "read, 64 stand open", &[b'('; 64])?;
    take(rt, "read, an opener behind a value", &open(b"1("))
}

fn refused(rt: &impl Print) -> io::Result<()> {
    empty([0]).read(rt, "read, no root", 1, b"(")?;
    p5([14, 12]).read(rt, "read, damaged and no room", 1, b"(1,2)")?;
    p5([14, 12]).read(rt, "read, damaged and room", 1, b"()")
}

pub fn cases(rt: &impl Print) -> io::Result<()> {
    tuples(rt)?;
    integers(rt)?;
    no_integer(rt)?;
    no_tuple(rt)?;
    no_room(rt)?;
    collected(rt)?;
    in_order(rt)?;
    deep(rt)?;
    refused(rt)
}
