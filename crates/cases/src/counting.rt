// Counting::countings: what a collection counts, where addresses are shared and where words look like some.
use case_runs::start::p5;
use case_runs::state::State;
use model::{Call, Half};
use std::io;

// S = 13: an address twice in one object, code words, raw words like addresses, garbage that holds addresses.
pub fn shared() -> State<27, 4> {
    let heap = [
        0, 6, 20, 20, 16777220, 0x80000004, 4, 8, 4, 4, 20, 4, 0, 4, 0, 0, 0, 0, 0, 0, 0, 0, 0, 0,
        0, 0, 0,
    ];
    State::new(Half::A, 14, heap, [4, 0, 44, 16777216])
}

pub fn cases(rt: &impl Print) -> io::Result<()> {
    // Two roots hold the same address; one is null, one an integer.
    let five_roots = p5([12, 12, 24, 0, 21]);
    five_roots.run(rt, "counting, P5 with five roots", &[Call::Collect])?;
    shared().run(rt, "counting, shared", &[Call::Collect])
}
