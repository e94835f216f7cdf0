// P5 to P10: collections of P5's words under other roots, and allocations that collect.
use super::calls;
use case_runs::start::p5;
use model::{Call, Kind};
use std::io;

pub fn cases(rt: &impl Print) -> io::Result<()> {
    let three_fields = calls::allocate(Kind::Traced, 3, 1);
    let four_fields = calls::allocate(Kind::Traced, 4, 1);
    let collected_and_seen = [Call::Collect, calls::inspect(0)];
    p5([24, 12]).run(rt, "P5", &[Call::Collect])?;
    p5([24, 12]).run(rt, "P6", &[three_fields])?;
    p5([24, 12]).run(rt, "P7", &[four_fields])?;
    p5([12, 12]).run(rt, "P8", &[Call::Collect])?;
    p5([14, 12]).run(rt, "P9, inside a word", &collected_and_seen)?;
    p5([16, 12]).run(rt, "P9, inside an object", &collected_and_seen)?;
    p5([]).run(rt, "P10, no roots", &[Call::Collect])
}
