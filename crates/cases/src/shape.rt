// Unsound::of_shape: SHAPE in each way that small heaps can show, and the ends of its ranges. All words are
// 0, and there is one null root.
use super::judge::sound;
use super::root_calls;
use case_runs::state::State;
use model::{Call, Half};
use std::io;

fn zeros<const W: usize>(half: Half, free: usize) -> State<W, 1> {
    State::new(half, free, [0; W], [0])
}

// S = 5.
fn in_11(half: Half, free: usize) -> State<11, 1> {
    zeros(half, free)
}

// Every call.
fn misshapen<const W: usize>(rt: &impl Print, title: &str, state: State<W, 1>) -> io::Result<()> {
    let mut asked = [Call::Check; 17];
    asked[0] = Call::Collect;
    asked[2..].copy_from_slice(&root_calls::all(0));
    state.run(rt, title, &asked)
}

fn lengths(rt: &impl Print) -> io::Result<()> {
    sound(rt, "shape, 3 words", zeros::<3>(Half::A, 1))?;
    misshapen(rt, "shape, 10 words", zeros::<10>(Half::A, 1))?;
    misshapen(rt, "shape, 12 words", zeros::<12>(Half::A, 1))?;
    misshapen(rt, "shape, 1 word", zeros::<1>(Half::A, 1))?;
    misshapen(rt, "shape, no words", zeros::<0>(Half::A, 1))
}

pub fn cases(rt: &impl Print) -> io::Result<()> {
    sound(rt, "shape, nothing used", in_11(Half::A, 1))?;
    sound(rt, "shape, all used", in_11(Half::A, 6))?;
    sound(rt, "shape, nothing used in half B", in_11(Half::B, 6))?;
    sound(rt, "shape, all used in half B", in_11(Half::B, 11))?;
    lengths(rt)?;
    misshapen(rt, "shape, free index before half A", in_11(Half::A, 0))?;
    misshapen(rt, "shape, free index before half B", in_11(Half::B, 5))?;
    misshapen(rt, "shape, free index past half A", in_11(Half::A, 7))?;
    misshapen(rt, "shape, free index past half B", in_11(Half::B, 12))
}
