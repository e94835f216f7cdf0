// The calls that are lent the bytes of a text: write, by which no object moves, and read.
ghost use Rattle.std.specs.Prelude.{◌≡◌};
ghost use Rattle.model.specs.Headers as Layouts;
ghost use Rattle.model.specs.Calls as Calls;
ghost use Rattle.crossing.specs.Numbers.{written_of, result_of, keeping};
ghost use Rattle.crossing.specs.Exports.{given_text, kept_text, called_text};

use crossing::{CRecord, CResult, CWritten, record_of, result_of, written_of};

// The text of what a root holds, into the first of the bytes: how many; or SHAPE, ROOT, OBJECT, VALUE, DEEP
// or TEXT, and then no byte changes.
#[unsafe(no_mangle)]
pub extern "C" fn phachunoi_write(
    heap: &[u32],
    roots: &[u32],
    record: CRecord,
    root: usize,
    text: &mut [u8],
) -> CWritten
    ensures { kept_text result heap.now roots.now «record» text.new
        ≡ called_text (keeping written_of) (Calls.write Layouts.tuple root)
        heap.now roots.now «record» text.old }
{
    written_of(writer::write(heap, roots, record_of(record), root, text))
}

// The value of a text into root `to`; or SHAPE, ROOT, VALUE, DEEP, DAMAGED or ROOM. Every object may move.
#[unsafe(no_mangle)]
pub extern "C" fn phachunoi_read(
    heap: &mut [u32],
    roots: &mut [u32],
    record: CRecord,
    to: usize,
    text: &[u8],
) -> CResult
    ensures { given_text result heap.new roots.new text.now
        ≡ called_text result_of (Calls.read Layouts.tuple to) heap.old roots.old «record» text.now }
{
    result_of(
        record,
        reader::read(heap, roots, record_of(record), to, text),
    )
}
