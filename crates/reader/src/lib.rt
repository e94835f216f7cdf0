// The value of a text: read. It has no `requires`: it answers for every heap, roots, record and text that it
// is lent, and its promise is one equation to its definition in `model`.
//
// A refused reader changes nothing but by a collection, so the text is judged first: whether it is one, and
// how many words its objects take. Where these are free it is gone over again, and each object is placed
// where it is met.
#![tactic(auto)]

ghost use Rattle.std.specs.Prelude.{◌≡◌, false, ◌<◌, length};
ghost use Rattle.model.specs.Words.{state_of, text_state_of};
ghost use Rattle.model.specs.Headers as Layouts;
ghost use Rattle.model.specs.Shape.{bad_shape_of};
ghost use Rattle.model.specs.Trees.{Forest, node, tree_words};
ghost use Rattle.model.specs.Changes.{planted};
ghost use Rattle.model.specs.Agreements.{outcome_text};
ghost use Rattle.model.specs.Calls as Calls;
ghost use Rattle.reader.specs.Planting.{Stands, MayPlant, retried};

use model::{Answer, Answered, Index, Record, Refusal};
use reader_judging::{Judged, judge};
use words::admission::admit;
use words::tuple::Tuple;

// The objects of a tuple's text from the free index on, and the address of the first into root `to`. The text
// takes `words` words, which are free. Answers the new record.
fn plant(
    heap: &mut [u32],
    roots: &mut [u32],
    record: Record,
    to: usize,
    text: &[u8],
    words: usize,
) -> Record
    requires { MayPlant (state_of heap.old roots.old «record») to words
        × ((g : Forest) × Stands text.now words g) }
    ensures { (g : Forest) → Stands text.now words g → text_state_of heap.new roots.new result text.now
        ≡ planted Layouts.tuple (node g) to (text_state_of heap.old roots.old «record» text.now) }
{
    let free = record.free;
    reader_placing::lay(heap, text, free.0, words);
    roots[to] = Tuple::address_of(free).0;
    Record {
        half: record.half,
        free: Index(free.0 + words),
    }
}

// After a collection: done, DAMAGED with nothing changed, or ROOM with the heap collected. All roots count as
// live in it, also what root `to` still holds. It is not shared with `allocator`: here
// must-fail/root_dead_in_its_own_read leaves out roots by this call's own number.
fn retry(
    heap: &mut [u32],
    roots: &mut [u32],
    record: Record,
    to: usize,
    text: &[u8],
    words: usize,
) -> Answered
    requires { (to < length roots.old) × ((g : Forest) × Stands text.now words g) }
    ensures { (g : Forest) → Stands text.now words g → outcome_text result heap.new roots.new text.now
        ≡ retried Layouts.tuple g to (text_state_of heap.old roots.old «record» text.now) }
{
    if checker::is_sound(heap, roots, record) {
        let all = roots.len();
        let after = engine::collect_among(heap, roots, all, record).record;
        if words <= placing::spare_of(heap.len(), after) {
            let planted = plant(heap, roots, after, to, text, words);
            return Answered::say(Answer::Done, planted);
        }
        return Answered::refuse(Refusal::Room, after);
    }
    Answered::refuse(Refusal::Damaged, record)
}

// A tuple's text, at once where its words are free, and else after a collection.
fn read_tuple(
    heap: &mut [u32],
    roots: &mut [u32],
    record: Record,
    to: usize,
    text: &[u8],
    words: usize,
) -> Answered
    requires { (bad_shape_of (length heap.old) (length roots.old) «record» ≡ false)
        × (to < length roots.old) × ((g : Forest) × Stands text.now words g) }
    ensures { (g : Forest) → Stands text.now words g → outcome_text result heap.new roots.new text.now
        ≡ Calls.with_room Layouts.tuple (tree_words (node g)) (planted Layouts.tuple (node g) to)
        (text_state_of heap.old roots.old «record» text.now) }
{
    if words <= placing::spare_of(heap.len(), record) {
        let planted = plant(heap, roots, record, to, text, words);
        return Answered::say(Answer::Done, planted);
    }
    retry(heap, roots, record, to, text, words)
}

// The value of a text into root `to`: done, or SHAPE, ROOT, VALUE, DEEP, DAMAGED or ROOM. An integer takes no
// words, and is read even where the heap is damaged. If a tuple's words are free, nothing moves; if not,
// every object may move, also where the answer is ROOM.
pub fn read(heap: &mut [u32], roots: &mut [u32], record: Record, to: usize, text: &[u8]) -> Answered
    ensures { outcome_text result heap.new roots.new text.now
        ≡ Calls.read Layouts.tuple to (text_state_of heap.old roots.old «record» text.now) }
{
    if let Err(refusal) = admit(heap, roots, record, to) {
        return Answered::refuse(refusal, record);
    }
    match judge(text) {
        Ok(Judged::Integer(value)) => Answered {
            answer: blind::set_integer(heap, roots, record, to, value as i64),
            record,
        },
        Ok(Judged::Tuple(words)) => read_tuple(heap, roots, record, to, text, words),
        Err(why) => Answered::refuse(why, record),
    }
}
