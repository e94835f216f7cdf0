// EachCall::single and EachCall::twice: each call beside the paper's cases, and a root named twice. S = 8.
use super::calls;
use case_runs::start::{junk, p5};
use case_runs::state::State;
use model::{Call, Half, Kind};
use std::io;

// In a heap that is not sound and has room.
fn allocate(rt: &impl Print) -> io::Result<()> {
    let call = calls::allocate(Kind::Untraced, 2, 0);
    junk(1, [14]).run(rt, "allocate, with room", &[call])
}

// After a collection from half B, which leaves the first object alone.
fn allocate_full(rt: &impl Print) -> io::Result<()> {
    let heap = [0, 0, 0, 0, 0, 0, 0, 0, 0, 0, 4, 40, 21, 0, 0, 0, 0];
    let call = calls::allocate(Kind::Untraced, 6, 1);
    State::new(Half::B, 13, heap, [36, 0]).run(rt, "allocate, to half A exactly full", &[call])
}

// On words that are no heap.
fn on_junk(rt: &impl Print) -> io::Result<()> {
    junk(1, [14, 12]).run(rt, "set integer, -5", &[calls::set_integer(1, -5)])?;
    junk(1, [14, 12]).run(rt, "set null", &[calls::set_null(1)])?;
    junk(1, [14, 12]).run(rt, "set code", &[calls::set_code(1, 16777218)])?;
    junk(1, [14, 12]).run(rt, "copy", &[calls::copy(0, 1)])?;
    let both = [calls::same(0, 1), calls::same(1, 2)];
    junk(1, [14, 14, 12]).run(rt, "same, yes and no", &both)?;
    junk(1, [0, 1]).run(rt, "same, null and 0", &[calls::same(0, 1)])
}

fn store(rt: &impl Print) -> io::Result<()> {
    let asked = [
        calls::store(1, 0, 0),
        calls::set_null(0),
        calls::load(1, 0, 0),
    ];
    p5([14, 12]).run(rt, "store, and load again", &asked)
}

// Words 1 to 8: an untraced object of two fields, a traced one of three, an untraced one of none. The roots
// hold null, 10, -5, and the objects.
fn kinds() -> State<17, 6> {
    let heap = [
        0, 0x80000004, 7, 8, 6, 0, 0, 0, 0x80000000, 0, 0, 0, 0, 0, 0, 0, 0,
    ];
    State::new(Half::A, 9, heap, [0, 21, 0xfffffff7, 16, 4, 32])
}

fn raw(rt: &impl Print) -> io::Result<()> {
    let asked = [calls::raw_write(4, 1, 0xffffffff), calls::raw_read(4, 1)];
    kinds().run(rt, "raw write and read, all bits", &asked)
}

pub fn cases(rt: &impl Print) -> io::Result<()> {
    p5([24, 12]).run(rt, "check, twice", &[Call::Check, Call::Check])?;
    allocate(rt)?;
    allocate_full(rt)?;
    on_junk(rt)?;
    p5([24, 12]).run(rt, "load", &[calls::load(1, 1, 0)])?;
    store(rt)?;
    raw(rt)?;
    let each_root = [0, 1, 2, 3, 4, 5].map(calls::inspect);
    kinds().run(rt, "inspect, each kind", &each_root)
}

pub fn twice(rt: &impl Print) -> io::Result<()> {
    let copy_and_same = [calls::copy(1, 1), calls::same(1, 1)];
    p5([24, 12]).run(rt, "twice, copy and same", &copy_and_same)?;
    p5([24, 12]).run(rt, "twice, load", &[calls::load(1, 1, 1)])?;
    p5([24, 12]).run(rt, "twice, store", &[calls::store(1, 1, 1)])
}
