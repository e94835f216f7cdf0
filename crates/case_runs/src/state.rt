// What a case starts from, its calls through `step`, and its line.
use model::{Call, Half, Index, Record, Told};
use numbers::told;
use session::step;
use std::{fmt, io};

// The heap's words, the roots' words and the heap's record: what a call is lent, and what it leaves to the
// next.
#[derive(Drop)]
pub struct State<const W: usize, const R: usize> {
    pub heap: [u32; W],
    pub roots: [u32; R],
    pub record: Record,
}

impl<const W: usize, const R: usize> State<W, R> {
    pub fn new(half: Half, free: usize, heap: [u32; W], roots: [u32; R]) -> Self {
        let free = Index(free);
        State {
            heap,
            roots,
            record: Record { half, free },
        }
    }

    // The line of a case whose calls are lent no bytes.
    pub fn run(mut self, rt: &impl Print, title: &str, calls: &[Call]) -> io::Result<()> {
        print!(rt; "{title}:")?;
        for call in calls {
            let answer = self.ask(*call, &mut []);
            print!(rt; " {answer}")?;
        }
        self.left(rt)
    }

    // The line of a write, lent a copy of `text`, and that of a read: all bytes that were lent stand behind
    // the answer, and before those of a write their number in the text.
    pub fn write<const N: usize>(
        mut self,
        rt: &impl Print,
        title: &str,
        root: usize,
        text: &[u8; N],
    ) -> io::Result<()> {
        let mut lent = *text;
        let answer = self.ask(Call::Write { root }, &mut lent);
        print!(rt; "{title}: {answer} length {}", answer.length)?;
        quoted(rt, &lent)?;
        self.left(rt)
    }

    pub fn read<const N: usize>(
        mut self,
        rt: &impl Print,
        title: &str,
        to: usize,
        text: &[u8; N],
    ) -> io::Result<()> {
        let mut lent = *text;
        let answer = self.ask(Call::Read { to }, &mut lent);
        print!(rt; "{title}: {answer}")?;
        quoted(rt, &lent)?;
        self.left(rt)
    }

    // A call that is lent `text`.
    fn ask(&mut self, call: Call, text: &mut [u8]) -> Told {
        let done = step(&mut self.heap, &mut self.roots, self.record, call, text);
        self.record = done.record;
        told(done.answer)
    }

    // What is left, to the end of the line.
    fn left(&self, rt: &impl Print) -> io::Result<()> {
        let heap = Spaced(&self.heap);
        let roots = Spaced(&self.roots);
        println!(rt; "; {}; heap{heap}; roots{roots}", self.record)
    }
}

fn quoted(rt: &impl Print, text: &[u8]) -> io::Result<()> {
    print!(rt; " \"")?;
    rt.write_all(text)?;
    print!(rt; "\"")
}

// Words in hexadecimal, each behind a space.
#[derive(Drop)]
struct Spaced<'a>(&'a [u32]);

impl fmt::Display for Spaced<'_> {
    fn fmt<W: fmt::Write>(&self, f: &mut fmt::Formatter<W>) -> fmt::Result {
        for word in self.0 {
            write!(f, " {word:08x}")?;
        }
        Ok(())
    }
}
