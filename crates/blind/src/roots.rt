// The calls on roots' words as they are: set to null, copy, same. None looks at a heap word.
ghost use Rattle.std.specs.Prelude.{◌≡◌};
ghost use Rattle.model.specs.Words.{state_of};
ghost use Rattle.model.specs.Agreements.{kept};
ghost use Rattle.model.specs.Calls as Calls;

use model::{Answer, Record, Refusal};
use words::admission::{admit, admit_both};

// Root `to` gets null: done, or SHAPE or ROOT. Leaves the heap and the record.
pub fn set_null(
    heap: &[u32],
    roots: &mut [u32],
    record: Record,
    to: usize,
) -> Result<Answer, Refusal>
    ensures { kept result heap.now roots.new «record»
        ≡ Calls.set_null to (state_of heap.now roots.old «record») }
{
    admit(heap, roots, record, to)?;
    roots[to] = 0;
    Ok(Answer::Done)
}

// Root `to` gets root `from`'s word, whatever it is: done, or SHAPE or ROOT. Leaves the heap and the record.
pub fn copy(
    heap: &[u32],
    roots: &mut [u32],
    record: Record,
    from: usize,
    to: usize,
) -> Result<Answer, Refusal>
    ensures { kept result heap.now roots.new «record»
        ≡ Calls.copy from to (state_of heap.now roots.old «record») }
{
    admit_both(heap, roots, record, from, to)?;
    roots[to] = roots[from];
    Ok(Answer::Done)
}

// Whether two roots hold equal words: yes or no, or SHAPE or ROOT. Leaves all as it was.
pub fn same(
    heap: &[u32],
    roots: &[u32],
    record: Record,
    one: usize,
    other: usize,
) -> Result<Answer, Refusal>
    ensures { kept result heap.now roots.now «record»
        ≡ Calls.same one other (state_of heap.now roots.now «record») }
{
    admit_both(heap, roots, record, one, other)?;
    if roots[one] == roots[other] {
        return Ok(Answer::Yes);
    }
    Ok(Answer::No)
}
