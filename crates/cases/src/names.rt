// Unnamed::namings: each clause of "names an object" broken alone. S = 5.
use super::calls;
use case_runs::state::State;
use model::Half;
use std::io;

// Every call that asks what root 0 names: inspect, then those on a field of each kind.
fn asks(rt: &impl Print, title: &str, state: State<11, 1>) -> io::Result<()> {
    let asked = [
        calls::inspect(0),
        calls::raw_read(0, 0),
        calls::raw_write(0, 0, 9),
        calls::store(0, 0, 0),
        calls::load(0, 0, 0),
    ];
    state.run(rt, title, &asked)
}

// A header at 1 and the fields 1 and 0; the free index is 4.
fn pair_a(rt: &impl Print, title: &str, header: u32, root: u32) -> io::Result<()> {
    let heap = [0, header, 1, 0, 0, 0, 0, 0, 0, 0, 0];
    asks(rt, title, State::new(Half::A, 4, heap, [root]))
}

// The same in half B, and traced.
fn pair_b(rt: &impl Print, title: &str, root: u32) -> io::Result<()> {
    let heap = [0, 0, 0, 0, 0, 0, 4, 1, 0, 0, 0];
    asks(rt, title, State::new(Half::B, 9, heap, [root]))
}

fn named(rt: &impl Print) -> io::Result<()> {
    pair_a(rt, "names, a traced object", 4, 4)?;
    pair_b(rt, "names, a traced object in half B", 24)?;
    pair_a(rt, "names, an untraced object", 0x80000004, 4)?;
    pair_a(rt, "names, a header's shape inside an object", 4, 12)
}

pub fn cases(rt: &impl Print) -> io::Result<()> {
    named(rt)?;
    pair_a(rt, "names, odd", 4, 5)?;
    pair_a(rt, "names, 0", 4, 0)?;
    pair_a(rt, "names, the lowest code word", 4, 16777216)?;
    pair_a(
        rt,
        "names, the highest code word that is a multiple of 4",
        4,
        0xfffffffc,
    )?;
    pair_a(rt, "names, no multiple of 4", 4, 6)?;
    pair_b(rt, "names, before the current half", 4)?;
    pair_a(rt, "names, at the free index", 4, 16)?;
    pair_a(rt, "names, past the free index", 4, 20)?;
    pair_a(rt, "names, in the idle half", 4, 24)?;
    pair_a(rt, "names, past the heap", 4, 44)?;
    pair_a(rt, "names, the last address", 4, 16777212)?;
    pair_a(rt, "names, bit 0 set there", 4, 8)?;
    pair_a(rt, "names, words end past the free index", 6, 4)?;
    pair_a(rt, "names, the largest count there", 0xfffffffe, 4)
}
