// Collect: the check first, since a collection of a heap that is not sound could do anything.
#![tactic(auto)]

ghost use Rattle.std.specs.Prelude.{◌≡◌};
ghost use Rattle.model.specs.Headers as Layouts;
ghost use Rattle.model.specs.Words.{state_of};
ghost use Rattle.model.specs.Agreements.{outcome};
ghost use Rattle.model.specs.Calls as Calls;

use model::{Answer, Answered, Record, Refusal};

// Copies what the roots reach to the other half, and clears this one: live words, live objects and addresses
// met; or SHAPE or DAMAGED. Every object may move; the roots follow.
pub fn collect(heap: &mut [u32], roots: &mut [u32], record: Record) -> Answered
    ensures { outcome result heap.new roots.new
        ≡ Calls.collect Layouts.tuple (state_of heap.old roots.old «record») }
{
    if words::shape::bad_shape(heap.len(), roots.len(), record) {
        return Answered::refuse(Refusal::Shape, record);
    }
    if checker::is_sound(heap, roots, record) {
        let done = engine::collect_sound(heap, roots, record);
        return Answered::say(Answer::Live(done.counts), done.record);
    }
    Answered::refuse(Refusal::Damaged, record)
}
