// The marks of the soundness check: each header of the used part is marked by a bit in the idle half, and a
// word is held against the marks. Nothing else knows where a mark stands.
//
// Walks over objects are `while` loops: how far the next header is, this one says, so that no range is known
// before; and where the step is the same from object to object, the place past `end` is the answer.
#![tactic(auto)]

ghost use Rattle.std.specs.Prelude.{◌≡◌, true, ◌≤◌, ◌<◌};
ghost use Rattle.model.specs.Headers.{tuple};
ghost use Rattle.model.specs.Limits.{max_words};
ghost use Rattle.model.specs.Words.{at};
ghost use Rattle.checker_marks.specs.Marks.{Fits, Unmarked, mark, cleared_marks, stretch_end};
ghost use Rattle.checker_marks.specs.Marks.{marking, marked_from, marked};

mod marks;
mod verdict;

pub use marks::Marks;
use model::Index;
pub use verdict::Verdict;
use words::tuple::Tuple;

// The used part of the current half, from its first word to the free index, and the first word of the other
// half: the mark of the word i is bit i % 32 of the word `marks + i / 32`.
#[derive(Clone, Copy)]
pub struct Part {
    pub first: Index,
    pub free: Index,
    pub marks: Index,
}

// Where marking stopped, and whether headers changed often on the way. The latter only chooses the way from
// there on.
#[derive(Clone, Copy)]
pub struct Stop {
    pub at: usize,
    pub mixed: bool,
}

// A walk over headers goes by stretches of so many words: by runs of equal headers, or one by one behind a
// stretch that had many runs, since each end of a run is a jump that is seldom foreseen.
pub const STRETCH: usize = 256;

// The words of a stretch that is passed one by one.
pub const MIXED_STRETCH: usize = 4096;

// More runs than so many in a stretch are many.
pub const MANY_RUNS: usize = 12;

pub fn stretch_end(at: usize, free: usize, words: usize) -> usize
    requires { (at ≤ free) × (free ≤ max_words) }
    ensures { result ≡ stretch_end at free words }
{
    if free - at < words {
        return free;
    }
    at + words
}

fn set_mark(heap: &mut [u32], part: Part, at: usize)
    requires { Fits heap.old part × (at ≤ part.free.0) }
    ensures { heap.new ≡ mark heap.old part at }
{
    let place = part.marks.0 + at / 32;
    heap[place] = heap[place] | (1 << (at % 32) as u32);
}

// Marks the object at an index and those behind it with the same header, up to `end`. Their size does not
// change, so that the next index does not wait for a word to be read; and the mark word stays at hand.
fn mark_alike(heap: &mut [u32], part: Part, from: usize, end: usize, header: u32) -> usize
    requires { Fits heap.old part × Unmarked heap.old part from × (part.first.0 ≤ from)
        × (from < end) × (end ≤ part.free.0)
        × (at heap.old from ≡ header) × (tuple.is_header header ≡ true) }
    ensures further { from < result }
    ensures behind { Unmarked heap.new part result }
    ensures left { marked_from tuple heap.new part result
        ≡ marked_from tuple heap.old part from }
{
    let marks = part.marks.0;
    let size = Tuple::count_of(header) + 1;
    let mut at = from;
    let mut place = from / 32;
    let mut word = heap[marks + place];
    while at < end {
        if heap[at] != header {
            return at;
        }
        let next = at / 32;
        let before = if next == place { word } else { 0 };
        word = before | (1 << (at % 32) as u32);
        place = next;
        heap[marks + place] = word;
        at += size;
    }
    at
}

// Marks the headers from an index up to `end`, by runs of equal ones. It stops at `end`, behind it, or at a
// word that is no header.
fn mark_by_runs(heap: &mut [u32], part: Part, from: usize, end: usize) -> Stop
    requires { Fits heap.old part × Unmarked heap.old part from × (part.first.0 ≤ from)
        × (from < end) × (end ≤ part.free.0) × (tuple.is_header (at heap.old from) ≡ true) }
    ensures further { from < result.at }
    ensures behind { Unmarked heap.new part result.at }
    ensures left { marked_from tuple heap.new part result.at
        ≡ marked_from tuple heap.old part from }
{
    let mut at = from;
    let mut runs: usize = 0;
    while at < end {
        let header = heap[at];
        if !Tuple::is_header(header) {
            return Stop { at, mixed: false };
        }
        at = mark_alike(heap, part, at, end, header);
        runs += 1;
    }
    Stop {
        at,
        mixed: MANY_RUNS < runs,
    }
}

// The same, one by one.
fn mark_each(heap: &mut [u32], part: Part, from: usize, end: usize) -> Stop
    requires { Fits heap.old part × Unmarked heap.old part from × (part.first.0 ≤ from)
        × (from < end) × (end ≤ part.free.0) × (tuple.is_header (at heap.old from) ≡ true) }
    ensures further { from < result.at }
    ensures behind { Unmarked heap.new part result.at }
    ensures left { marked_from tuple heap.new part result.at
        ≡ marked_from tuple heap.old part from }
{
    let mut at = from;
    while at < end {
        let header = heap[at];
        if !Tuple::is_header(header) {
            return Stop { at, mixed: false };
        }
        set_mark(heap, part, at);
        at += Tuple::count_of(header) + 1;
    }
    Stop { at, mixed: false }
}

fn mark_stretch(heap: &mut [u32], part: Part, from: usize, mixed: bool) -> Stop
    requires { Fits heap.old part × Unmarked heap.old part from × (part.first.0 ≤ from)
        × (from < part.free.0) × (tuple.is_header (at heap.old from) ≡ true) }
    ensures further { from < result.at }
    ensures behind { Unmarked heap.new part result.at }
    ensures left { marked_from tuple heap.new part result.at
        ≡ marked_from tuple heap.old part from }
{
    let free = part.free.0;
    if mixed {
        return mark_each(heap, part, from, stretch_end(from, free, MIXED_STRETCH));
    }
    mark_by_runs(heap, part, from, stretch_end(from, free, STRETCH))
}

// Marks null and the headers from the first on. Answers where it stopped: at the free index exactly if
// objects tile the part.
pub fn mark_headers(heap: &mut [u32], part: Part) -> Index
    requires { Fits heap.old part × Unmarked heap.old part 0 }
    ensures { marking heap.new result.0 ≡ marked tuple heap.old part }
{
    let free = part.free.0;
    let mut at = part.first.0;
    let mut mixed = free - at < STRETCH;
    set_mark(heap, part, 0);
    while at < free {
        if !Tuple::is_header(heap[at]) {
            return Index(at);
        }
        let stop = mark_stretch(heap, part, at, mixed);
        at = stop.at;
        mixed = stop.mixed;
    }
    Index(at)
}

// Clears what marking touched, one word for each 32 of the part or two more.
pub fn clear_marks(heap: &mut [u32], part: Part)
    requires { Fits heap.old part }
    ensures { heap.new ≡ cleared_marks heap.old part }
{
    let marks = part.marks.0;
    let from = part.first.0 / 32;
    let words = part.free.0 / 32 - from + 1;
    runs::clear(heap, marks, 1);
    runs::clear(heap, marks + from, words);
}
