// Every case of the definitions' tables in Worked, CodeWords, Counting, Unnamed, Unsound and EachCall, in
// their order, through the compiled calls; those of TextCases are the program `text_cases`. A line for each:
// its name, the answers in numbers, and the record, words and roots that are left. The expected lines, worked
// out from documents 01 and 02, stand in the file `stdout`, and the gate compares.
#![tactic(auto)]

use std::io;

mod calls;
mod codes;
mod collections;
mod counting;
mod fresh;
mod integer_words;
mod judge;
mod lowest;
mod names;
mod order;
mod root_calls;
mod shape;
mod single;
mod tuple_and_string;
mod unsound_words;
mod values;

fn worked(rt: &impl Print) -> io::Result<()> {
    integer_words::cases(rt)?;
    tuple_and_string::cases(rt)?;
    collections::cases(rt)?;
    fresh::cases(rt)
}

fn unsound(rt: &impl Print) -> io::Result<()> {
    shape::cases(rt)?;
    unsound_words::cases(rt)?;
    values::roots(rt)?;
    values::fields(rt)
}

fn each_call(rt: &impl Print) -> io::Result<()> {
    single::cases(rt)?;
    single::twice(rt)?;
    order::cases(rt)?;
    lowest::cases(rt)
}

fn main(rt: HostRuntime) -> io::Result<()> {
    worked(&rt)?;
    codes::cases(&rt)?;
    counting::cases(&rt)?;
    names::cases(&rt)?;
    unsound(&rt)?;
    each_call(&rt)
}
