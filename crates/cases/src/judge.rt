// Check and collect, and what else is asked where a clause of "sound" is broken; the heaps in which it is.
// S = 5.
use super::calls;
use case_runs::state::State;
use model::{Call, Half, Kind};
use std::io;

// A sound heap: check and collect.
pub fn sound<const W: usize, const R: usize>(
    rt: &impl Print,
    title: &str,
    state: State<W, R>,
) -> io::Result<()> {
    state.run(rt, title, &[Call::Check, Call::Collect])
}

// One that is not: an allocation that calls for a collection, too.
pub fn unsound<const W: usize, const R: usize>(
    rt: &impl Print,
    title: &str,
    state: State<W, R>,
) -> io::Result<()> {
    let never_fits = calls::allocate(Kind::Traced, 5, 0);
    state.run(rt, title, &[Call::Check, Call::Collect, never_fits])
}

// Two objects of one field: at 1 one that names itself, at 3 garbage that holds the integer 0. Word 5 is
// free.
pub fn two_objects<const R: usize>(roots: [u32; R]) -> State<11, R> {
    State::new(Half::A, 5, [0, 2, 4, 2, 1, 0, 0, 0, 0, 0, 0], roots)
}

// The same in half B, at 6 and 8.
pub fn two_objects_b<const R: usize>(roots: [u32; R]) -> State<11, R> {
    State::new(Half::B, 10, [0, 0, 0, 0, 0, 0, 2, 24, 2, 1, 0], roots)
}
