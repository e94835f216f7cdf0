// The calls that are lent the bytes of a text: write, which changes nothing but these bytes, and read, which
// leaves them. Both are lent them by `&mut`, as every thin call is lent all it has, and the equation says
// what is left as it was.
ghost use Rattle.std.specs.Prelude.{◌≡◌};
ghost use Rattle.model.specs.Headers as Layouts;
ghost use Rattle.model.specs.Words.{text_state_of};
ghost use Rattle.model.specs.Agreements.{kept_text};
ghost use Rattle.model.specs.Calls as Calls;

use crate::hand_back;
use model::{Answer, Record, Refusal};

// The text of what a root holds, into the first of the bytes: their number; or SHAPE, ROOT, OBJECT, VALUE,
// DEEP or TEXT, and then no byte changes. Leaves heap, roots and record.
pub fn write(
    heap: &mut [u32],
    roots: &mut [u32],
    record: &mut Record,
    root: usize,
    text: &mut [u8],
) -> Result<Answer, Refusal>
    ensures { kept_text result heap.new roots.new «record».new text.new
        ≡ Calls.write Layouts.tuple root (text_state_of heap.old roots.old «record».old text.old) }
{
    writer::write(heap, roots, *record, root, text)
}

// The value of a text into root `to`: done, or SHAPE, ROOT, VALUE, DEEP, DAMAGED or ROOM. If a tuple has no
// room it collects first, and every object may move; the record follows, also where the answer is ROOM.
// Leaves the bytes.
pub fn read(
    heap: &mut [u32],
    roots: &mut [u32],
    record: &mut Record,
    to: usize,
    text: &mut [u8],
) -> Result<Answer, Refusal>
    ensures { kept_text result heap.new roots.new «record».new text.new
        ≡ Calls.read Layouts.tuple to (text_state_of heap.old roots.old «record».old text.old) }
{
    hand_back(reader::read(heap, roots, *record, to, text), record)
}
