// EachCall::ordered: the order of a collection. S = 7.
use case_runs::state::State;
use model::{Call, Half};
use std::io;

fn collects<const R: usize>(rt: &impl Print, title: &str, state: State<15, R>) -> io::Result<()> {
    state.run(rt, title, &[Call::Collect])
}

// At 1 an object with the fields `x` and `y`, at 4 one that holds 10, at 6 one with no fields.
fn fork<const R: usize>(x: u32, y: u32, roots: [u32; R]) -> State<15, R> {
    let heap = [0, 4, x, y, 2, 21, 0, 0, 0, 0, 0, 0, 0, 0, 0];
    State::new(Half::A, 7, heap, roots)
}

// The object at 4 names one more at 7.
fn deeper_fork() -> State<15, 1> {
    let heap = [0, 4, 16, 24, 2, 28, 0, 0x80000000, 0, 0, 0, 0, 0, 0, 0];
    State::new(Half::A, 8, heap, [4])
}

// A fork in half B.
fn fork_b() -> State<15, 1> {
    let heap = [0, 0, 0, 0, 0, 0, 0, 0, 4, 44, 52, 2, 21, 0, 0];
    State::new(Half::B, 14, heap, [32])
}

pub fn cases(rt: &impl Print) -> io::Result<()> {
    collects(rt, "order, fields", fork(16, 24, [4]))?;
    collects(rt, "order, fields against addresses", fork(24, 16, [4]))?;
    collects(rt, "order, met again", fork(16, 16, [4]))?;
    collects(rt, "order, roots before fields", fork(16, 24, [4, 24]))?;
    collects(rt, "order, roots against addresses", fork(16, 24, [24, 4]))?;
    collects(rt, "order, copies in their new order", deeper_fork())?;
    collects(rt, "order, from half B to half A", fork_b())
}
