// Allocate: place the object if it fits; if not, collect first and try once more.
#![tactic(auto)]

ghost use Rattle.std.specs.Prelude.{◌≡◌, ◌≤◌, ◌<◌, length};
ghost use Rattle.model.specs.Limits.{max_fields};
ghost use Rattle.model.specs.Headers as Layouts;
ghost use Rattle.model.specs.Words.{state_of};
ghost use Rattle.model.specs.Agreements.{outcome};
ghost use Rattle.model.specs.Calls as Calls;
ghost use Rattle.allocator.specs.Retrying.{retried};

use model::{Answer, Answered, Kind, Record, Refusal};
use words::admission::admit;
use words::shape::MAX_FIELDS;

// After a collection: done, DAMAGED with nothing changed, or ROOM with the heap collected. It is not shared
// with `reader`: must-fail/root_dead_in_its_own_allocation leaves out roots by this call's own number.
fn retry(
    heap: &mut [u32],
    roots: &mut [u32],
    record: Record,
    kind: Kind,
    fields: usize,
    to: usize,
) -> Answered
    requires { (fields ≤ max_fields) × (to < length roots.old) }
    ensures { outcome result heap.new roots.new
        ≡ retried Layouts.tuple kind fields to (state_of heap.old roots.old «record») }
{
    if checker::is_sound(heap, roots, record) {
        let all = roots.len();
        let after = engine::collect_among(heap, roots, all, record).record;
        if fields < placing::spare_of(heap.len(), after) {
            let placed = placing::place(heap, roots, after, kind, fields, to);
            return Answered::say(Answer::Done, placed);
        }
        return Answered::refuse(Refusal::Room, after);
    }
    Answered::refuse(Refusal::Damaged, record)
}

// Root `to` gets a new object, its fields null or raw zeros: done, or SHAPE, ROOT, COUNT, DAMAGED or ROOM. If
// there is room, nothing moves and only the new object's words and that root are touched; if not, every
// object may move.
pub fn allocate(
    heap: &mut [u32],
    roots: &mut [u32],
    record: Record,
    kind: Kind,
    fields: usize,
    to: usize,
) -> Answered
    ensures { outcome result heap.new roots.new
        ≡ Calls.allocate Layouts.tuple kind fields to (state_of heap.old roots.old «record») }
{
    if let Err(refusal) = admit(heap, roots, record, to) {
        return Answered::refuse(refusal, record);
    }
    if MAX_FIELDS < fields {
        return Answered::refuse(Refusal::Count, record);
    }
    if fields < placing::spare_of(heap.len(), record) {
        let placed = placing::place(heap, roots, record, kind, fields, to);
        return Answered::say(Answer::Done, placed);
    }
    retry(heap, roots, record, kind, fields, to)
}
