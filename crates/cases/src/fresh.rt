// The Fresh cases: S = 8, one null root, each call on its own on what fresh leaves of words that are no heap.
use super::calls;
use case_runs::state::State;
use model::{Half, Index, Kind, Record};
use std::io;

fn freshly() -> State<17, 1> {
    let any = Record {
        half: Half::B,
        free: Index(12),
    };
    let mut heap = [7; 17];
    let roots = [0];
    let record = blind::fresh(&mut heap, &roots, any).record;
    State {
        heap,
        roots,
        record,
    }
}

fn allocated(rt: &impl Print, title: &str, fields: usize) -> io::Result<()> {
    freshly().run(rt, title, &[calls::allocate(Kind::Traced, fields, 0)])
}

pub fn cases(rt: &impl Print) -> io::Result<()> {
    allocated(rt, "Fresh, 7 fields", 7)?;
    allocated(rt, "Fresh, 8 fields", 8)?;
    allocated(rt, "Fresh, largest count", 1073741823)?;
    allocated(rt, "Fresh, count too large", 1073741824)
}
