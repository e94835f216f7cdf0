// The window on the object that a root names: it holds on to the lent heap words, with the object's place
// among them. What it shows is settled by the two functions over the words and the place; the opener and the
// two readers only pass on.
#![tactic(auto)]

ghost use Rattle.std.specs.Prelude.{◌≡◌};
ghost use Rattle.model.specs.Headers as Layouts;
ghost use Rattle.model.specs.Window as Windows;
ghost use Rattle.model.specs.Words.{state_of};

use model::{Answer, Place, Record, Refusal};

// The lent heap words, and where the object stands among them or why there is none.
#[derive(Clone, Copy)]
pub struct Window<'a> {
    pub heap: &'a [u32],
    pub place: Result<Place, Refusal>,
}

// The field count at a place: how many words a window there shows, 0 where it is refused.
pub fn count_of(place: Result<Place, Refusal>) -> u32
    ensures { result ≡ Windows.window_count place }
{
    place.map_or(0, |place| place.count)
}

// The word at a field number of the object at a place, or FIELD, also where the place is refused for another
// reason. Any words and any place will do: FIELD too for a field that lies past the end of the words, which
// no place has that was found in them.
pub fn word_at(heap: &[u32], place: Result<Place, Refusal>, field: usize) -> Result<Answer, Refusal>
    ensures { result ≡ Windows.window_word heap.now place field }
{
    let Ok(Place { header, count }) = place else {
        return Err(Refusal::Field);
    };
    let at = header.0;
    // In this order no sum and no difference overflows, whatever the place.
    if field < count as usize && at < heap.len() && field < heap.len() - at - 1 {
        Ok(Answer::Number(heap[at + 1 + field]))
    } else {
        Err(Refusal::Field)
    }
}

// A window on the object that a root names, of either kind; or one refused with SHAPE, ROOT or OBJECT. Of the
// object it looks at the header, and at no field.
pub fn open<'a>(heap: &'a [u32], roots: &[u32], record: Record, object: usize) -> Window<'a>
    ensures { (result.heap ≡ heap.entry)
        × (result.place ≡ Windows.window Layouts.tuple object (state_of heap.now roots.now «record»)) }
{
    let place = views::place::find(heap, roots, record, object);
    Window { heap, place }
}

// The field count of the object that a window is on, 0 where it is refused.
pub fn count<'a>(window: Window<'a>) -> u32
    ensures { result ≡ Windows.window_count window.entry.place }
{
    count_of(window.place)
}

// The word at a field number of the object that a window is on, as it stands in the lent words; or FIELD.
pub fn word<'a>(window: Window<'a>, field: usize) -> Result<Answer, Refusal>
    ensures { result ≡ Windows.window_word window.entry.heap.now window.entry.place field }
{
    word_at(window.heap, window.place, field)
}
