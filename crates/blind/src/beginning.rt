// Fresh: the call that makes a heap of any lent words.
ghost use Rattle.std.specs.Prelude.{◌≡◌};
ghost use Rattle.model.specs.Words.{state_of};
ghost use Rattle.model.specs.Agreements.{outcome};
ghost use Rattle.model.specs.Calls as Calls;

use model::{Answer, Answered, Half, Index, Record, Refusal};
use runs::clear;
use words::shape::bad_length;

// Clears all heap words, and answers with half A and free index 1: done, or the heap-length part of SHAPE,
// and then the record that it was handed. Leaves the roots, and looks neither at them nor at what the record
// says.
pub fn fresh(heap: &mut [u32], roots: &[u32], record: Record) -> Answered
    ensures { outcome result heap.new roots.now ≡ Calls.fresh (state_of heap.old roots.now «record») }
{
    let length = heap.len();
    if bad_length(length) {
        return Answered::refuse(Refusal::Shape, record);
    }
    clear(heap, 0, length);
    let start = Record {
        half: Half::A,
        free: Index(1),
    };
    Answered::say(Answer::Done, start)
}
