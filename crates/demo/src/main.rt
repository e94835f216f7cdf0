// Builds P5 of document 01 by calls, collects it, and prints what is left.
#![tactic(auto)]

use allocator::allocate;
use blind::{fresh, set_integer};
use collector::collect;
use model::{Answer, Half, Index, Kind, Record, Refusal};
use objects::store;
use std::io;

// What each call is lent, and leaves to the next. S = 8.
#[derive(Drop)]
struct State {
    heap: [u32; 17],
    roots: [u32; 2],
    record: Record,
}

impl State {
    // An empty heap.
    fn new() -> Self {
        let any = Record {
            half: Half::A,
            free: Index(1),
        };
        let mut heap = [0; 17];
        let roots = [0; 2];
        let record = fresh(&mut heap, &roots, any).record;
        State {
            heap,
            roots,
            record,
        }
    }

    // A traced object of `fields` fields, into root `to`.
    fn allocate(&mut self, fields: usize, to: usize) -> Result<(), Refusal> {
        let (heap, roots) = (&mut self.heap, &mut self.roots);
        let done = allocate(heap, roots, self.record, Kind::Traced, fields, to);
        self.record = done.record;
        done.answer?;
        Ok(())
    }

    // What root `from` holds, into a field of the object of root `object`.
    fn store(&mut self, object: usize, field: usize, from: usize) -> Result<(), Refusal> {
        store(
            &mut self.heap,
            &self.roots,
            self.record,
            object,
            field,
            from,
        )?;
        Ok(())
    }

    // The integer `value` there, by way of root `by`.
    fn put(&mut self, object: usize, field: usize, by: usize, value: i64) -> Result<(), Refusal> {
        set_integer(&self.heap, &mut self.roots, self.record, by, value)?;
        self.store(object, field, by)
    }

    // P5: an object that holds 0, and one that names itself and holds 10; an object with no fields takes the
    // first one's root, so that nothing names it.
    fn build(&mut self) -> Result<(), Refusal> {
        self.allocate(1, 0)?;
        self.put(0, 0, 1, 0)?;
        self.allocate(2, 1)?;
        self.put(1, 1, 0, 10)?;
        self.store(1, 0, 1)?;
        self.allocate(0, 0)
    }

    // The live words of P5, collected.
    fn collect(&mut self) -> Result<u32, Refusal> {
        self.build()?;
        let done = collect(&mut self.heap, &mut self.roots, self.record);
        self.record = done.record;
        match done.answer? {
            Answer::Live(counts) => Ok(counts.live),
            _ => Ok(0),
        }
    }
}

// Each word of half B up to the free index.
fn words(rt: &impl Print, state: &State) -> io::Result<()> {
    let end = state.record.free.0;
    for (index, word) in state.heap.iter().enumerate().take(end).skip(9) {
        println!(rt; "{index} {word:08x}")?;
    }
    Ok(())
}

fn table(rt: &impl Print, roots: &[u32]) -> io::Result<()> {
    for (root, word) in roots.iter().enumerate() {
        println!(rt; "root {root} {word:08x}")?;
    }
    Ok(())
}

fn main(rt: HostRuntime) -> io::Result<()> {
    let mut state = State::new();
    let live = state.collect().unwrap_or(0);
    println!(rt; "{} live {live}", state.record)?;
    words(&rt, &state)?;
    table(&rt, &state.roots)
}
