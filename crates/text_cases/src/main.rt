// Every case of the definitions' tables in TextCases, in their order, through the compiled calls. A line for
// each: its name, the answer in numbers, for a text that is written its length, the bytes that were lent, and
// the record, words and roots that are left. The expected lines, worked out from document 02, stand in the
// file `stdout`, and the gate compares.
#![tactic(auto)]

use std::io;

mod readings;
mod texts;

fn main(rt: HostRuntime) -> io::Result<()> {
    texts::cases(&rt)?;
    readings::cases(&rt)
}
