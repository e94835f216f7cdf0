// The object that a word names: whether it names one, and a field of it.
#![tactic(auto)]

ghost use Rattle.std.specs.Prelude.{◌≡◌, List, ℕ};
ghost use Rattle.model.specs.Words.{state_of};
ghost use Rattle.model.specs.Headers as Layouts;
ghost use Rattle.model.specs.Objects as Objects;
ghost use Rattle.naming.specs.Named.{FreeInHeap, field_of};

use model::{Address, Index, Kind, Record, Refusal};
use words::shape::{first_of, half_words, in_run};
use words::tuple::Tuple;

// Whether a word names an object. It looks at the word there only once that lies in the used part. That the
// word is even and not 0 needs no test: it is a multiple of 4, and no used part begins at word 0.
pub fn names(heap: &[u32], record: Record, word: u32) -> bool
    requires { FreeInHeap heap.now «record» }
    ensures { (R : List ℕ) → result
        ≡ Objects.names Layouts.tuple (state_of heap.now R «record») word }
{
    if word % 4 != 0 {
        return false;
    }
    let free = record.free.0;
    let first = first_of(half_words(heap.len()), record.half).0;
    let at = Tuple::index_of(Address(word)).0;
    if !in_run(at, first, free - first) {
        return false;
    }
    let header = heap[at];
    if !Tuple::is_header(header) {
        return false;
    }
    Tuple::count_of(header) < free - at
}

// The index of the word of a field of the object that a word names; or OBJECT, KIND and FIELD in order.
pub fn field_of(
    heap: &[u32],
    record: Record,
    word: u32,
    kind: Kind,
    field: usize,
) -> Result<Index, Refusal>
    requires { FreeInHeap heap.now «record» }
    ensures { (R : List ℕ) → result
        ≡ field_of Layouts.tuple kind word field (state_of heap.now R «record») }
{
    if !names(heap, record, word) {
        return Err(Refusal::Object);
    }
    let at = Tuple::index_of(Address(word)).0;
    let header = heap[at];
    if Tuple::kind_of(header) != kind {
        return Err(Refusal::Kind);
    }
    if Tuple::count_of(header) <= field {
        return Err(Refusal::Field);
    }
    Ok(Index(at + 1 + field))
}
