// The place of a window, by itself: the crate `window` puts it beside the words that its struct is lent.
ghost use Rattle.std.specs.Prelude.{◌≡◌};
ghost use Rattle.model.specs.Headers as Layouts;
ghost use Rattle.model.specs.Window.{window};
ghost use Rattle.model.specs.Words.{state_of};

use model::{Address, Index, Place, Record, Refusal};
use naming::names;
use words::shape::bad_shape;
use words::tuple::Tuple;

// Where the object that a root names stands, of either kind, with its field count; or SHAPE, ROOT or OBJECT.
// It looks at the header, and at no field.
pub fn find(heap: &[u32], roots: &[u32], record: Record, object: usize) -> Result<Place, Refusal>
    ensures { result ≡ window Layouts.tuple object (state_of heap.now roots.now «record») }
{
    // Not by `admit`: must-fail/window_root_as_object turns the second answer alone.
    if bad_shape(heap.len(), roots.len(), record) {
        return Err(Refusal::Shape);
    }
    if roots.len() <= object {
        return Err(Refusal::Root);
    }
    let word = roots[object];
    if !names(heap, record, word) {
        return Err(Refusal::Object);
    }
    let at = Tuple::index_of(Address(word)).0;
    let header = heap[at];
    let count = Tuple::count_of(header) as u32;
    Ok(Place {
        header: Index(at),
        count,
    })
}
