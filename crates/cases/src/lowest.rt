// EachCall::lowest: the lowest rank that applies is given. S = 8.
use super::{calls, root_calls};
use case_runs::start::{empty, junk, p5};
use case_runs::state::State;
use model::{Half, Kind};
use std::io;

fn root_and_shape(rt: &impl Print) -> io::Result<()> {
    empty([0]).run(rt, "lowest, ROOT", &root_calls::all(1))?;
    let misshapen = State::new(Half::A, 0, [0; 17], []);
    misshapen.run(rt, "lowest, SHAPE before ROOT", &root_calls::all(0))
}

fn range(rt: &impl Print) -> io::Result<()> {
    let too_many = calls::allocate(Kind::Traced, 1073741824, 1);
    let too_large = calls::set_integer(1, 1073741824);
    let odd = calls::set_code(1, 16777217);
    let asked = [too_many, too_large, odd];
    empty([0]).run(rt, "lowest, ROOT before COUNT and RANGE", &asked)
}

// No word is free, and the words are no heap.
fn count(rt: &impl Print) -> io::Result<()> {
    let too_many = calls::allocate(Kind::Traced, 1073741824, 0);
    let most = calls::allocate(Kind::Traced, 1073741823, 0);
    let asked = [too_many, most];
    junk(9, [0]).run(rt, "lowest, COUNT before DAMAGED before ROOM", &asked)
}

fn field(rt: &impl Print) -> io::Result<()> {
    let unnamed = [calls::load(0, 9, 0), calls::raw_read(0, 9)];
    empty([0]).run(rt, "lowest, OBJECT before FIELD", &unnamed)?;
    let traced = [calls::raw_read(1, 9), calls::load(1, 9, 0)];
    p5([24, 12]).run(rt, "lowest, KIND before FIELD", &traced)
}

pub fn cases(rt: &impl Print) -> io::Result<()> {
    root_and_shape(rt)?;
    range(rt)?;
    count(rt)?;
    field(rt)
}
