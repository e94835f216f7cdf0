// Unsound::of_roots and Unsound::of_fields: each root and each field of a traced object is a value; a raw
// word is any word. S = 5.
use super::calls;
use super::judge::{self, two_objects};
use case_runs::state::State;
use model::{Call, Half};
use std::io;

// At 1 an object whose field is `live`, at 3 one of the header `header` that holds `last`.
fn two_fields(live: u32, header: u32, last: u32, root: u32) -> State<11, 1> {
    let heap = [0, 2, live, header, last, 0, 0, 0, 0, 0, 0];
    State::new(Half::A, 5, heap, [root])
}

fn sound(
    rt: &impl Print,
    title: &str,
    live: u32,
    header: u32,
    last: u32,
    root: u32,
) -> io::Result<()> {
    judge::sound(rt, title, two_fields(live, header, last, root))
}

// Both traced.
fn unsound(rt: &impl Print, title: &str, live: u32, last: u32, root: u32) -> io::Result<()> {
    judge::unsound(rt, title, two_fields(live, 2, last, root))
}

// No header of the tiling, although it names an object.
fn named_inside(rt: &impl Print) -> io::Result<()> {
    let asked = [calls::inspect(0), Call::Check, Call::Collect];
    two_objects([8]).run(rt, "root, a header's shape inside an object", &asked)
}

pub fn roots(rt: &impl Print) -> io::Result<()> {
    sound(rt, "root, an integer", 4, 2, 1, 5)?;
    sound(rt, "root, null", 4, 2, 1, 0)?;
    sound(rt, "root, a code word", 4, 2, 1, 16777218)?;
    sound(rt, "root, the other object", 4, 2, 1, 12)?;
    named_inside(rt)?;
    unsound(rt, "root, no multiple of 4", 4, 1, 6)?;
    unsound(rt, "root, the free word", 4, 1, 20)?;
    unsound(rt, "root, in the idle half", 4, 1, 24)?;
    unsound(rt, "root, past the heap", 4, 1, 44)?;
    unsound(rt, "root, the last address", 4, 1, 16777212)?;
    unsound(rt, "root, just below the floor", 4, 1, 16777214)?;
    // The first root names the first object.
    judge::unsound(rt, "root, the last alone", two_objects([4, 6]))
}

fn live_fields(rt: &impl Print) -> io::Result<()> {
    sound(rt, "field, an integer", 1, 2, 1, 4)?;
    sound(rt, "field, null", 0, 2, 1, 4)?;
    sound(rt, "field, a code word", 16777216, 2, 1, 4)?;
    sound(rt, "field, the other object", 12, 2, 1, 4)?;
    unsound(rt, "field, no multiple of 4", 6, 1, 4)?;
    unsound(rt, "field, no header", 8, 1, 4)?;
    unsound(rt, "field, the free word", 20, 1, 4)?;
    unsound(rt, "field, in the idle half", 24, 1, 4)?;
    unsound(rt, "field, just below the floor", 16777214, 1, 4)
}

fn garbage_fields(rt: &impl Print) -> io::Result<()> {
    sound(rt, "garbage, its own header", 4, 2, 12, 4)?;
    sound(rt, "garbage, a code word", 4, 2, 0xfffffffe, 4)?;
    unsound(rt, "garbage, no multiple of 4", 4, 6, 4)?;
    unsound(rt, "garbage, no header", 4, 8, 4)?;
    unsound(rt, "garbage, the free word", 4, 20, 4)?;
    unsound(rt, "garbage, in the idle half", 4, 24, 4)
}

pub fn fields(rt: &impl Print) -> io::Result<()> {
    live_fields(rt)?;
    garbage_fields(rt)?;
    let last_field = State::new(Half::A, 4, [0, 4, 1, 6, 0, 0, 0, 0, 0, 0, 0], [4]);
    judge::unsound(rt, "field, the last alone", last_field)?;
    sound(rt, "raw word, no multiple of 4", 4, 0x80000002, 6, 4)?;
    sound(rt, "raw word, in the idle half", 4, 0x80000002, 24, 4)?;
    sound(rt, "raw word, live, no multiple of 4", 4, 0x80000002, 6, 12)?;
    sound(rt, "raw word, live, of a header", 4, 0x80000002, 4, 12)
}
