// An allocation that is done at once: nothing refuses it, and its words are free. Nearly every allocation is
// one, so that a boundary to another language asks this first, of numbers that are still in registers.
ghost use Rattle.std.specs.Prelude.{◌≡◌, true, length};
ghost use Rattle.model.specs.Headers as Layouts;
ghost use Rattle.model.specs.Answers.{says};
ghost use Rattle.model.specs.Words.{state_of};
ghost use Rattle.model.specs.declared.Answer.TheVariants as Says;
ghost use Rattle.model.specs.Calls as Calls;
ghost use Rattle.placing.specs.Placing.{at_once};

use crate::{place, spare_of};
use model::{Kind, Record};

// Whether an allocation is such. It looks at no word.
pub fn fits(length: usize, root_count: usize, record: Record, fields: usize, to: usize) -> bool
    ensures { result ≡ at_once length root_count «record» fields to }
{
    if words::shape::bad_shape(length, root_count, record) {
        return false;
    }
    to < root_count && fields < spare_of(length, record)
}

// Such an allocation: done. Answers the new record.
pub fn allocate(
    heap: &mut [u32],
    roots: &mut [u32],
    record: Record,
    kind: Kind,
    fields: usize,
    to: usize,
) -> Record
    requires { at_once (length heap.old) (length roots.old) «record» fields to ≡ true }
    ensures { says Says.Done (state_of heap.new roots.new result)
        ≡ Calls.allocate Layouts.tuple kind fields to (state_of heap.old roots.old «record») }
{
    place(heap, roots, record, kind, fields, to)
}
