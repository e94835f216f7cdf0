// The calls on a whole heap: fresh, check, collect, allocate.
ghost use Rattle.std.specs.Prelude.{◌≡◌, []};
ghost use Rattle.model.specs.declared.Kind.TheVariants.{Traced, Untraced};
ghost use Rattle.model.specs.Headers as Layouts;
ghost use Rattle.model.specs.Calls as Calls;
ghost use Rattle.crossing.specs.Numbers as Numbers;
ghost use Rattle.crossing.specs.Numbers.{answer_of, keeping, given_of, begun};
ghost use Rattle.crossing.specs.Exports.{given, kept, called};

use crossing::{
    CAnswer, CCollected, CRecord, CResult, answer_of, collected_of, done_with, fresh_result_of,
    record_of, result_of,
};
use model::Kind;
use placing::at_once;

// Clears all heap words; half A, free index 1. SHAPE is of the heap's length alone, and hands the record back
// as it came.
#[unsafe(no_mangle)]
pub extern "C" fn phachunoi_fresh(heap: &mut [u32], record: CRecord) -> CResult
    ensures { given_of result heap.new [] [] ≡ begun heap.old «record» }
{
    fresh_result_of(record, blind::fresh(heap, &[], record_of(record)))
}

// Value 1 where the heap is sound, 0 where not; or SHAPE. It marks in the idle half, and no word differs
// afterwards.
#[unsafe(no_mangle)]
pub extern "C" fn phachunoi_check(heap: &mut [u32], roots: &[u32], record: CRecord) -> CAnswer
    ensures { kept result heap.new roots.now «record»
        ≡ called (keeping answer_of) (Calls.check Layouts.tuple) heap.old roots.now «record» }
{
    answer_of(checker::check(heap, roots, record_of(record)))
}

// Live words, live objects and addresses met; or SHAPE or DAMAGED. Every object may move.
#[unsafe(no_mangle)]
pub extern "C" fn phachunoi_collect(
    heap: &mut [u32],
    roots: &mut [u32],
    record: CRecord,
) -> CCollected
    ensures { given result heap.new roots.new
        ≡ called Numbers.collected_of (Calls.collect Layouts.tuple) heap.old roots.old «record» }
{
    collected_of(record, collector::collect(heap, roots, record_of(record)))
}

// An allocation by the whole call. It stands by itself, so that the one which is done at once saves no
// register for it.
fn allocate_in_full(
    heap: &mut [u32],
    roots: &mut [u32],
    record: CRecord,
    kind: Kind,
    fields: usize,
    to: usize,
) -> CResult
    ensures { given result heap.new roots.new
        ≡ called Numbers.result_of (Calls.allocate Layouts.tuple kind fields to) heap.old roots.old «record» }
{
    result_of(
        record,
        allocator::allocate(heap, roots, record_of(record), kind, fields, to),
    )
}

// An allocation. Where the object fits, that is found and done here, with no answer in memory.
#[inline(always)]
fn allocate(
    heap: &mut [u32],
    roots: &mut [u32],
    record: CRecord,
    kind: Kind,
    fields: usize,
    to: usize,
) -> CResult
    ensures { given result heap.new roots.new
        ≡ called Numbers.result_of (Calls.allocate Layouts.tuple kind fields to) heap.old roots.old «record» }
{
    let taken = record_of(record);
    if at_once::fits(heap.len(), roots.len(), taken, fields, to) {
        return done_with(at_once::allocate(heap, roots, taken, kind, fields, to));
    }
    allocate_in_full(heap, roots, record, kind, fields, to)
}

// Root `to` gets a new object of values, all null; or SHAPE, ROOT, COUNT, DAMAGED or ROOM. Every object may
// move.
#[unsafe(no_mangle)]
pub extern "C" fn phachunoi_allocate_traced(
    heap: &mut [u32],
    roots: &mut [u32],
    record: CRecord,
    fields: usize,
    to: usize,
) -> CResult
    ensures { given result heap.new roots.new
        ≡ called Numbers.result_of (Calls.allocate Layouts.tuple Traced fields to)
        heap.old roots.old «record» }
{
    allocate(heap, roots, record, Kind::Traced, fields, to)
}

// The same of an object of raw words, all 0.
#[unsafe(no_mangle)]
pub extern "C" fn phachunoi_allocate_untraced(
    heap: &mut [u32],
    roots: &mut [u32],
    record: CRecord,
    fields: usize,
    to: usize,
) -> CResult
    ensures { given result heap.new roots.new
        ≡ called Numbers.result_of (Calls.allocate Layouts.tuple Untraced fields to)
        heap.old roots.old «record» }
{
    allocate(heap, roots, record, Kind::Untraced, fields, to)
}
