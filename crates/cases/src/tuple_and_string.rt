// P3, a tuple, and P4, a string.
use super::calls;
use case_runs::start::empty;
use model::{Call, Kind};
use std::io;

// The fields' integers by way of root 1.
fn pair(rt: &impl Print) -> io::Result<()> {
    let asked = [
        calls::allocate(Kind::Traced, 2, 0),
        calls::set_integer(1, 23),
        calls::store(0, 0, 1),
        calls::set_integer(1, 42),
        calls::store(0, 1, 1),
    ];
    empty([0, 0]).run(rt, "P3, the tuple (23, 42)", &asked)
}

// "hello" and its zero byte.
fn text(rt: &impl Print) -> io::Result<()> {
    let asked = [
        calls::allocate(Kind::Untraced, 2, 0),
        calls::raw_write(0, 0, 0x6c6c6568),
        calls::raw_write(0, 1, 0x6f),
        Call::Collect,
        calls::raw_read(0, 0),
        calls::inspect(0),
    ];
    empty([0]).run(rt, "P4, the string hello", &asked)
}

pub fn cases(rt: &impl Print) -> io::Result<()> {
    pair(rt)?;
    text(rt)?;
    let asked = [calls::inspect(0), Call::Collect];
    empty([0x6c6c6568]).run(rt, "P4, its second word in a root", &asked)
}
