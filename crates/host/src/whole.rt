// The calls on the heap as a whole: fresh, check, collect, allocate; and the step of a session, whichever its
// call.
ghost use Rattle.std.specs.Prelude.{◌≡◌};
ghost use Rattle.model.specs.Headers as Layouts;
ghost use Rattle.model.specs.Words.{state_of, text_state_of};
ghost use Rattle.model.specs.Agreements.{kept, kept_text};
ghost use Rattle.model.specs.Calls as Calls;
ghost use Rattle.model.specs.Sessions as Sessions;

use crate::hand_back;
use model::{Answer, Call, Kind, Record, Refusal};

// Clears all heap words and sets the record to half A and free index 1: done, or the heap-length part of
// SHAPE, and then the record stays. Leaves the roots, and looks neither at them nor at what the record says.
pub fn fresh(heap: &mut [u32], roots: &mut [u32], record: &mut Record) -> Result<Answer, Refusal>
    ensures { kept result heap.new roots.new «record».new
        ≡ Calls.fresh (state_of heap.old roots.old «record».old) }
{
    hand_back(blind::fresh(heap, roots, *record), record)
}

// Whether the heap is sound, or SHAPE. Leaves all as it was: the marks that it makes in the heap are cleared
// again.
pub fn check(heap: &mut [u32], roots: &mut [u32], record: &mut Record) -> Result<Answer, Refusal>
    ensures { kept result heap.new roots.new «record».new
        ≡ Calls.check Layouts.tuple (state_of heap.old roots.old «record».old) }
{
    checker::check(heap, roots, *record)
}

// Copies what the roots reach to the other half, and clears this one: live words, live objects and addresses
// met; or SHAPE or DAMAGED. Every object may move; the roots and the record follow.
pub fn collect(heap: &mut [u32], roots: &mut [u32], record: &mut Record) -> Result<Answer, Refusal>
    ensures { kept result heap.new roots.new «record».new
        ≡ Calls.collect Layouts.tuple (state_of heap.old roots.old «record».old) }
{
    hand_back(collector::collect(heap, roots, *record), record)
}

// Root `to` gets a new object, its fields null or raw zeros: done, or SHAPE, ROOT, COUNT, DAMAGED or ROOM. If
// there is no room it collects first, and every object may move; the record follows, also where the answer is
// ROOM.
pub fn allocate(
    heap: &mut [u32],
    roots: &mut [u32],
    record: &mut Record,
    kind: Kind,
    fields: usize,
    to: usize,
) -> Result<Answer, Refusal>
    ensures { kept result heap.new roots.new «record».new
        ≡ Calls.allocate Layouts.tuple kind fields to (state_of heap.old roots.old «record».old) }
{
    hand_back(
        allocator::allocate(heap, roots, *record, kind, fields, to),
        record,
    )
}

// One session call, whichever it is, lent the bytes of a text, which only write and read look at: its answer,
// and what it leaves.
pub fn step(
    heap: &mut [u32],
    roots: &mut [u32],
    record: &mut Record,
    call: Call,
    text: &mut [u8],
) -> Result<Answer, Refusal>
    ensures { kept_text result heap.new roots.new «record».new text.new
        ≡ Sessions.step Layouts.tuple call (text_state_of heap.old roots.old «record».old text.old) }
{
    hand_back(session::step(heap, roots, *record, call, text), record)
}
