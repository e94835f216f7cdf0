// One object moved to the free words, and one word renamed.
#![tactic(auto)]

ghost use Rattle.std.specs.Prelude.{◌≡◌};
ghost use Rattle.model.specs.Headers.{tuple};
ghost use Rattle.engine_moving.specs.Moving.{left, relocated, renamed, counted};
ghost use Rattle.engine_moving.specs.Moving.{MayMove, MayRename, MayCount};

use model::{Address, Index};
use words::tuple::Tuple;
use words::values::is_address;

// What a word that is renamed led to: no object, one that is copied now, or one that was copied before.
#[derive(Clone, Copy, PartialEq, Eq)]
pub enum Met {
    Plain,
    Copied,
    Found,
}

// What a word becomes, the next free word, and what the word led to.
#[derive(Clone, Copy)]
pub struct Renamed {
    pub word: u32,
    pub free: Index,
    pub met: Met,
}

// How many words led to an object that was copied then, and how many to one that was copied before.
#[derive(Clone, Copy, Default)]
pub struct Tally {
    pub copied: usize,
    pub found: usize,
}

impl Tally {
    // Counts what one more word led to.
    pub fn count(self, met: Met) -> Tally
        requires { MayCount self }
        ensures { result ≡ counted self met }
    {
        match met {
            Met::Plain => self,
            Met::Copied => Tally {
                copied: self.copied + 1,
                ..self
            },
            Met::Found => Tally {
                found: self.found + 1,
                ..self
            },
        }
    }
}

// Of words that were renamed: the next free word, and what was met so far.
#[derive(Clone, Copy)]
pub struct Swept {
    pub free: Index,
    pub tally: Tally,
}

impl Swept {
    // One more word was renamed.
    pub fn past(self, renamed: Renamed) -> Swept
        requires { MayCount self.tally }
        ensures free { result.free ≡ renamed.free }
        ensures tally { result.tally ≡ counted self.tally renamed.met }
    {
        Swept {
            free: renamed.free,
            tally: self.tally.count(renamed.met),
        }
    }
}

// Moves the object at an index to the free words, unless that was done: then its header is the mark of the
// copy's address. Answers that address for the word.
fn relocate(heap: &mut [u32], object: Index, free: Index) -> Renamed
    requires { MayMove tuple heap.old object.0 free.0 }
    ensures { left heap.new result.word result.free.0 result.met
        ≡ relocated tuple heap.old object.0 free.0 }
{
    let from = object.0;
    let to = free.0;
    let header = heap[from];
    if Tuple::is_header(header) {
        let n = Tuple::count_of(header);
        heap[to] = header;
        runs::copy(heap, from + 1, to + 1, n);
        let copy = Tuple::address_of(free);
        let mark = Tuple::mark(copy);
        heap[from] = mark;
        let end = to + 1 + n;
        return Renamed {
            word: copy.0,
            free: Index(end),
            met: Met::Copied,
        };
    }
    Renamed {
        word: Tuple::unmark(header).0,
        free,
        met: Met::Found,
    }
}

// Renames one word: a word that is no address stays. A collection is this, for each root and each field: as a
// call it makes most collections take 30 to 45 % more instructions.
#[inline(always)]
pub fn rename(heap: &mut [u32], word: u32, free: Index) -> Renamed
    requires { MayRename tuple heap.old word free.0 }
    ensures { left heap.new result.word result.free.0 result.met
        ≡ renamed tuple heap.old word free.0 }
{
    if is_address(word) {
        return relocate(heap, Tuple::index_of(Address(word)), free);
    }
    Renamed {
        word,
        free,
        met: Met::Plain,
    }
}
