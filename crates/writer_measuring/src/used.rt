// The used part of a heap, and what a word names there.
ghost use Rattle.std.specs.Prelude.{◌≡◌, ◌≤◌, length};
ghost use Rattle.writer_measuring.specs.Forms.{why_unnamed};

use model::{Address, Refusal};
use words::tuple::Tuple;
use words::values::is_code;

// The words from `first` up to `free`. Both ends go along, since they are the same for each value and
// `naming::names` works the first one out each time.
#[derive(Clone, Copy)]
pub struct UsedPart<'a> {
    pub heap: &'a [u32],
    pub first: usize,
    pub free: usize,
    ghost begins: { first ≤ free },
    ghost within: { free ≤ length heap.now },
}

// Why an even word that names no object has no text: null and code words are values.
#[tactic(auto, unfolding(crate::specs::Forms::why_unnamed))]
fn why_unnamed(word: u32) -> Refusal
    ensures { result ≡ why_unnamed word }
{
    if word == 0 || is_code(word) {
        return Refusal::Value;
    }
    Refusal::Object
}

impl UsedPart<'_> {
    ghost use Rattle.writer_measuring.specs.Parts.{named_by, tuple_by};

    // Whether a word names an object of the part.
    fn names(&self, word: u32) -> bool
        ensures { result ≡ named_by self.now word }
    {
        if word % 4 != 0 {
            return false;
        }
        let at = Tuple::index_of(Address(word)).0;
        if at < self.first {
            return false;
        }
        if self.free <= at {
            return false;
        }
        let header = self.heap[at];
        if !Tuple::is_header(header) {
            return false;
        }
        Tuple::count_of(header) < self.free - at
    }

    // Where the tuple stands that an even word names, or why the word has no text.
    pub(crate) fn find_tuple(&self, word: u32) -> Result<usize, Refusal>
        ensures { result ≡ tuple_by self.now word }
    {
        if !self.names(word) {
            return Err(why_unnamed(word));
        }
        let object = Tuple::index_of(Address(word)).0;
        if Tuple::is_traced(self.heap[object]) {
            return Ok(object);
        }
        Err(Refusal::Value)
    }
}
