// The calls on a field of the object that a root names: load, store, raw read, raw write. No object moves.
// Each may refuse with SHAPE, ROOT, OBJECT, KIND or FIELD.
ghost use Rattle.std.specs.Prelude.{◌≡◌};
ghost use Rattle.model.specs.Headers as Layouts;
ghost use Rattle.model.specs.Calls as Calls;
ghost use Rattle.crossing.specs.Numbers.{answer_of, keeping};
ghost use Rattle.crossing.specs.Exports.{kept, called};

use crossing::{CAnswer, CRecord, answer_of, record_of};

// Root `to` gets the word in a field of a traced object.
#[unsafe(no_mangle)]
pub extern "C" fn phachunoi_load(
    heap: &[u32],
    roots: &mut [u32],
    record: CRecord,
    object: usize,
    field: usize,
    to: usize,
) -> CAnswer
    ensures { kept result heap.now roots.new «record»
        ≡ called (keeping answer_of) (Calls.load Layouts.tuple object field to) heap.now roots.old «record» }
{
    answer_of(objects::load(heap, roots, record_of(record), object, field, to))
}

// A field of a traced object gets root `from`'s word.
#[unsafe(no_mangle)]
pub extern "C" fn phachunoi_store(
    heap: &mut [u32],
    roots: &[u32],
    record: CRecord,
    object: usize,
    field: usize,
    from: usize,
) -> CAnswer
    ensures { kept result heap.new roots.now «record»
        ≡ called (keeping answer_of) (Calls.store Layouts.tuple object field from)
        heap.old roots.now «record» }
{
    answer_of(objects::store(heap, roots, record_of(record), object, field, from))
}

// The raw word in a field of an untraced object.
#[unsafe(no_mangle)]
pub extern "C" fn phachunoi_raw_read(
    heap: &[u32],
    roots: &[u32],
    record: CRecord,
    object: usize,
    field: usize,
) -> CAnswer
    ensures { kept result heap.now roots.now «record»
        ≡ called (keeping answer_of) (Calls.raw_read Layouts.tuple object field) heap.now roots.now «record» }
{
    answer_of(objects::raw_read(heap, roots, record_of(record), object, field))
}

// A field of an untraced object gets a raw word.
#[unsafe(no_mangle)]
pub extern "C" fn phachunoi_raw_write(
    heap: &mut [u32],
    roots: &[u32],
    record: CRecord,
    object: usize,
    field: usize,
    number: u32,
) -> CAnswer
    ensures { kept result heap.new roots.now «record»
        ≡ called (keeping answer_of) (Calls.raw_write Layouts.tuple object field number)
        heap.old roots.now «record» }
{
    answer_of(objects::raw_write(heap, roots, record_of(record), object, field, number))
}
