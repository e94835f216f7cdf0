// The calls on one field of the object that a root names: load, store, raw read, raw write. Each looks at the
// object's header and at that field, and at no other heap word.
#![tactic(auto)]

ghost use Rattle.std.specs.Prelude.{◌≡◌};
ghost use Rattle.model.specs.Headers as Layouts;
ghost use Rattle.model.specs.Words.{state_of};
ghost use Rattle.model.specs.Agreements.{kept};
ghost use Rattle.model.specs.Calls as Calls;
ghost use Rattle.objects.specs.Reached.{reached};

use model::{Answer, Index, Kind, Record, Refusal};
use naming::field_of;
use words::admission::admit_both;

// What the four calls have in common: SHAPE, ROOT for the object's root and for the other that the call
// names, and then the field. A call that names no other root names the object's twice.
fn reach(
    heap: &[u32],
    roots: &[u32],
    record: Record,
    kind: Kind,
    object: usize,
    field: usize,
    other: usize,
) -> Result<Index, Refusal>
    ensures { result ≡ reached Layouts.tuple kind object field other (state_of heap.now roots.now «record») }
{
    admit_both(heap, roots, record, object, other)?;
    field_of(heap, record, roots[object], kind, field)
}

// Root `to` gets the word in a field of a traced object: done, or SHAPE, ROOT, OBJECT, KIND or FIELD. Leaves
// the heap and the record. It does not look at what the word is.
pub fn load(
    heap: &[u32],
    roots: &mut [u32],
    record: Record,
    object: usize,
    field: usize,
    to: usize,
) -> Result<Answer, Refusal>
    ensures { kept result heap.now roots.new «record»
        ≡ Calls.load Layouts.tuple object field to (state_of heap.now roots.old «record») }
{
    let found = reach(heap, roots, record, Kind::Traced, object, field, to)?;
    roots[to] = heap[found.0];
    Ok(Answer::Done)
}

// A field of a traced object gets root `from`'s word: done, or SHAPE, ROOT, OBJECT, KIND or FIELD. Leaves the
// roots, the record and all other heap words. It does not look at what the word is.
pub fn store(
    heap: &mut [u32],
    roots: &[u32],
    record: Record,
    object: usize,
    field: usize,
    from: usize,
) -> Result<Answer, Refusal>
    ensures { kept result heap.new roots.now «record»
        ≡ Calls.store Layouts.tuple object field from (state_of heap.old roots.now «record») }
{
    let target = reach(heap, roots, record, Kind::Traced, object, field, from)?;
    heap[target.0] = roots[from];
    Ok(Answer::Done)
}

// The raw word in a field of an untraced object; or SHAPE, ROOT, OBJECT, KIND or FIELD. Leaves all as it was.
pub fn raw_read(
    heap: &[u32],
    roots: &[u32],
    record: Record,
    object: usize,
    field: usize,
) -> Result<Answer, Refusal>
    ensures { kept result heap.now roots.now «record»
        ≡ Calls.raw_read Layouts.tuple object field (state_of heap.now roots.now «record») }
{
    let found = reach(heap, roots, record, Kind::Untraced, object, field, object)?;
    let word = heap[found.0];
    Ok(Answer::Number(word))
}

// A field of an untraced object gets a raw word: done, or SHAPE, ROOT, OBJECT, KIND or FIELD. Leaves the
// roots, the record and all other heap words.
pub fn raw_write(
    heap: &mut [u32],
    roots: &[u32],
    record: Record,
    object: usize,
    field: usize,
    number: u32,
) -> Result<Answer, Refusal>
    ensures { kept result heap.new roots.now «record»
        ≡ Calls.raw_write Layouts.tuple object field number (state_of heap.old roots.now «record») }
{
    let target = reach(heap, roots, record, Kind::Untraced, object, field, object)?;
    heap[target.0] = number;
    Ok(Answer::Done)
}
