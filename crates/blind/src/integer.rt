// Set a root to an integer.
ghost use Rattle.std.specs.Prelude.{◌≡◌};
ghost use Rattle.model.specs.Words.{state_of};
ghost use Rattle.model.specs.Agreements.{kept};
ghost use Rattle.model.specs.Calls as Calls;

use integers::tag;
use model::{Answer, Record, Refusal};
use words::admission::admit;

// Root `to` gets an integer's word: done, or SHAPE, ROOT or RANGE. Leaves the heap and the record, and looks
// at no heap word.
pub fn set_integer(
    heap: &[u32],
    roots: &mut [u32],
    record: Record,
    to: usize,
    value: i64,
) -> Result<Answer, Refusal>
    ensures { kept result heap.now roots.new «record»
        ≡ Calls.set_integer to value (state_of heap.now roots.old «record») }
{
    admit(heap, roots, record, to)?;
    roots[to] = tag(value).ok_or(Refusal::Range)?;
    Ok(Answer::Done)
}
