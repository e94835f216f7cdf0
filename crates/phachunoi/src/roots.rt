// The calls on roots: set, copy, same, inspect. No object moves.
ghost use Rattle.std.specs.Prelude.{◌≡◌};
ghost use Rattle.model.specs.Headers as Layouts;
ghost use Rattle.model.specs.Calls as Calls;
ghost use Rattle.crossing.specs.Numbers.{answer_of, seen_of, keeping};
ghost use Rattle.crossing.specs.Exports.{kept, called};

use crossing::{CAnswer, CRecord, CSeen, answer_of, record_of, seen_of};

// Root `to` gets an integer; or SHAPE, ROOT or RANGE.
#[unsafe(no_mangle)]
pub extern "C" fn phachunoi_set_integer(
    heap: &[u32],
    roots: &mut [u32],
    record: CRecord,
    to: usize,
    value: i64,
) -> CAnswer
    ensures { kept result heap.now roots.new «record»
        ≡ called (keeping answer_of) (Calls.set_integer to value) heap.now roots.old «record» }
{
    answer_of(blind::set_integer(heap, roots, record_of(record), to, value))
}

// Root `to` gets null; or SHAPE or ROOT.
#[unsafe(no_mangle)]
pub extern "C" fn phachunoi_set_null(
    heap: &[u32],
    roots: &mut [u32],
    record: CRecord,
    to: usize,
) -> CAnswer
    ensures { kept result heap.now roots.new «record»
        ≡ called (keeping answer_of) (Calls.set_null to) heap.now roots.old «record» }
{
    answer_of(blind::set_null(heap, roots, record_of(record), to))
}

// Root `to` gets a code word; or SHAPE, ROOT or RANGE.
#[unsafe(no_mangle)]
pub extern "C" fn phachunoi_set_code(
    heap: &[u32],
    roots: &mut [u32],
    record: CRecord,
    to: usize,
    word: u32,
) -> CAnswer
    ensures { kept result heap.now roots.new «record»
        ≡ called (keeping answer_of) (Calls.set_code to word) heap.now roots.old «record» }
{
    answer_of(blind::set_code(heap, roots, record_of(record), to, word))
}

// Root `to` gets root `from`'s word; or SHAPE or ROOT.
#[unsafe(no_mangle)]
pub extern "C" fn phachunoi_copy(
    heap: &[u32],
    roots: &mut [u32],
    record: CRecord,
    from: usize,
    to: usize,
) -> CAnswer
    ensures { kept result heap.now roots.new «record»
        ≡ called (keeping answer_of) (Calls.copy from to) heap.now roots.old «record» }
{
    answer_of(blind::copy(heap, roots, record_of(record), from, to))
}

// Value 1 where two roots hold equal words, 0 where not; or SHAPE or ROOT.
#[unsafe(no_mangle)]
pub extern "C" fn phachunoi_same(
    heap: &[u32],
    roots: &[u32],
    record: CRecord,
    one: usize,
    other: usize,
) -> CAnswer
    ensures { kept result heap.now roots.now «record»
        ≡ called (keeping answer_of) (Calls.same one other) heap.now roots.now «record» }
{
    answer_of(blind::same(heap, roots, record_of(record), one, other))
}

// What a root holds; or SHAPE, ROOT or OBJECT.
#[unsafe(no_mangle)]
pub extern "C" fn phachunoi_inspect(
    heap: &[u32],
    roots: &[u32],
    record: CRecord,
    root: usize,
) -> CSeen
    ensures { kept result heap.now roots.now «record»
        ≡ called (keeping seen_of) (Calls.inspect Layouts.tuple root) heap.now roots.now «record» }
{
    seen_of(views::tell(heap, roots, record_of(record), root))
}
