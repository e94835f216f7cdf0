// SHAPE, and then ROOT of the roots that a call names.
ghost use Rattle.std.specs.Prelude.{◌≡◌, ◌<◌, [], ◌∷◌, length, OnOk};
ghost use Rattle.model.specs.Words.{state_of};
ghost use Rattle.words.specs.Admits.{admits};

use crate::shape::{bad_shape, no_root};
use model::{Record, Refusal};

// Of a call that names one root.
pub fn admit(heap: &[u32], roots: &[u32], record: Record, root: usize) -> Result<(), Refusal>
    ensures is { result ≡ admits (root ∷ []) (state_of heap.now roots.now «record») }
    ensures there { OnOk result (root < length roots.now) }
{
    admit_both(heap, roots, record, root, root)
}

// Of a call that names two.
pub fn admit_both(
    heap: &[u32],
    roots: &[u32],
    record: Record,
    one: usize,
    other: usize,
) -> Result<(), Refusal>
    ensures is { result ≡ admits (one ∷ other ∷ []) (state_of heap.now roots.now «record») }
    ensures there { OnOk result ((one < length roots.now) × (other < length roots.now)) }
{
    if bad_shape(heap.len(), roots.len(), record) {
        return Err(Refusal::Shape);
    }
    if no_root(roots.len(), one, other) {
        return Err(Refusal::Root);
    }
    Ok(())
}
