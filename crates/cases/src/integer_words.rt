// P1 and P2: integers and their words.
use super::calls;
use case_runs::start::empty;
use std::io;

// Set into root 0, and inspected there.
fn seen(rt: &impl Print, title: &str, value: i64) -> io::Result<()> {
    let asked = [calls::set_integer(0, value), calls::inspect(0)];
    empty([0]).run(rt, title, &asked)
}

pub fn cases(rt: &impl Print) -> io::Result<()> {
    seen(rt, "P1, 10", 10)?;
    seen(rt, "P1, 0", 0)?;
    seen(rt, "P1, -1", -1)?;
    seen(rt, "P2, largest", 1073741823)?;
    seen(rt, "P2, smallest", -1073741824)?;
    empty([0]).run(rt, "P2, one too many", &[calls::set_integer(0, 1073741824)])
}
