// CodeWords::codes: code words set, refused, collected and loaded. P5's start, S = 8.
use super::calls;
use case_runs::start::p5;
use case_runs::state::State;
use model::{Call, Half};
use std::io;

// Set into root 0, and inspected there.
fn seen(rt: &impl Print, title: &str, word: u32) -> io::Result<()> {
    let asked = [calls::set_code(0, word), calls::inspect(0)];
    p5([24, 12]).run(rt, title, &asked)
}

fn refused(rt: &impl Print) -> io::Result<()> {
    let below = calls::set_code(0, 16777214);
    let odd = calls::set_code(0, 16777217);
    let null = calls::set_code(0, 0);
    p5([24, 12]).run(rt, "code, below the floor, odd, null", &[below, odd, null])
}

fn collected(rt: &impl Print) -> io::Result<()> {
    let heap = [0, 2, 1, 4, 12, 16777228, 0, 0, 0, 0, 0, 0, 0, 0, 0, 0, 0];
    State::new(Half::A, 7, heap, [16777218, 12]).run(rt, "code, collected", &[Call::Collect])
}

// What is left there.
fn left() -> State<17, 2> {
    let heap = [0, 0, 0, 0, 0, 0, 0, 0, 0, 4, 36, 16777228, 0, 0, 0, 0, 0];
    State::new(Half::B, 12, heap, [16777218, 36])
}

// No object: every call that wants one.
fn unnamed(rt: &impl Print) -> io::Result<()> {
    let asked = [
        Call::Check,
        calls::inspect(0),
        calls::load(0, 0, 1),
        calls::store(0, 0, 1),
        calls::raw_read(0, 0),
        calls::raw_write(0, 0, 9),
    ];
    left().run(rt, "code, no object", &asked)
}

fn loaded(rt: &impl Print) -> io::Result<()> {
    let asked = [
        calls::load(1, 1, 0),
        calls::inspect(0),
        calls::store(1, 0, 0),
        calls::load(1, 0, 1),
        calls::same(0, 1),
    ];
    left().run(rt, "code, loaded and stored", &asked)
}

pub fn cases(rt: &impl Print) -> io::Result<()> {
    seen(rt, "code, the lowest", 16777216)?;
    refused(rt)?;
    seen(rt, "code, the highest", 4294967294)?;
    p5([24, 12]).run(rt, "code, ROOT before RANGE", &[calls::set_code(2, 0)])?;
    collected(rt)?;
    unnamed(rt)?;
    loaded(rt)
}
