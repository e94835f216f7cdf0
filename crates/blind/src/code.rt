// Set a root to a code word.
ghost use Rattle.std.specs.Prelude.{◌≡◌};
ghost use Rattle.model.specs.Words.{state_of};
ghost use Rattle.model.specs.Agreements.{kept};
ghost use Rattle.model.specs.Calls as Calls;

use model::{Answer, Record, Refusal};
use words::admission::admit;
use words::values::is_code;

// Root `to` gets a code word: done, or SHAPE, ROOT or RANGE. Leaves the heap and the record, and looks at no
// heap word.
pub fn set_code(
    heap: &[u32],
    roots: &mut [u32],
    record: Record,
    to: usize,
    word: u32,
) -> Result<Answer, Refusal>
    ensures { kept result heap.now roots.new «record»
        ≡ Calls.set_code to word (state_of heap.now roots.old «record») }
{
    admit(heap, roots, record, to)?;
    if !is_code(word) {
        return Err(Refusal::Range);
    }
    roots[to] = word;
    Ok(Answer::Done)
}
