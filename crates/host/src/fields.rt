// The calls on one field of the object that a root names: load, store, raw read, raw write. None changes the
// record, and each looks at the object's header and at that field, and at no other heap word.
ghost use Rattle.std.specs.Prelude.{◌≡◌};
ghost use Rattle.model.specs.Headers as Layouts;
ghost use Rattle.model.specs.Words.{state_of};
ghost use Rattle.model.specs.Agreements.{kept};
ghost use Rattle.model.specs.Calls as Calls;

use model::{Answer, Record, Refusal};

// Root `to` gets the word in a field of a traced object: done, or SHAPE, ROOT, OBJECT, KIND or FIELD. Leaves
// the heap and the record.
pub fn load(
    heap: &mut [u32],
    roots: &mut [u32],
    record: &mut Record,
    object: usize,
    field: usize,
    to: usize,
) -> Result<Answer, Refusal>
    ensures { kept result heap.new roots.new «record».new
        ≡ Calls.load Layouts.tuple object field to (state_of heap.old roots.old «record».old) }
{
    objects::load(heap, roots, *record, object, field, to)
}

// A field of a traced object gets root `from`'s word: done, or SHAPE, ROOT, OBJECT, KIND or FIELD. Leaves the
// roots, the record and all other heap words.
pub fn store(
    heap: &mut [u32],
    roots: &mut [u32],
    record: &mut Record,
    object: usize,
    field: usize,
    from: usize,
) -> Result<Answer, Refusal>
    ensures { kept result heap.new roots.new «record».new
        ≡ Calls.store Layouts.tuple object field from (state_of heap.old roots.old «record».old) }
{
    objects::store(heap, roots, *record, object, field, from)
}

// The raw word in a field of an untraced object; or SHAPE, ROOT, OBJECT, KIND or FIELD. Leaves all as it was.
pub fn raw_read(
    heap: &mut [u32],
    roots: &mut [u32],
    record: &mut Record,
    object: usize,
    field: usize,
) -> Result<Answer, Refusal>
    ensures { kept result heap.new roots.new «record».new
        ≡ Calls.raw_read Layouts.tuple object field (state_of heap.old roots.old «record».old) }
{
    objects::raw_read(heap, roots, *record, object, field)
}

// A field of an untraced object gets a raw word: done, or SHAPE, ROOT, OBJECT, KIND or FIELD. Leaves the
// roots, the record and all other heap words.
pub fn raw_write(
    heap: &mut [u32],
    roots: &mut [u32],
    record: &mut Record,
    object: usize,
    field: usize,
    number: u32,
) -> Result<Answer, Refusal>
    ensures { kept result heap.new roots.new «record».new
        ≡ Calls.raw_write Layouts.tuple object field number (state_of heap.old roots.old «record».old) }
{
    objects::raw_write(heap, roots, *record, object, field, number)
}
