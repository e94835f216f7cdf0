// The window on an object: where its fields stand, and the word of one. The numbers are the host's to keep,
// and hold until an object moves.
ghost use Rattle.std.specs.Prelude.{◌≡◌};
ghost use Rattle.model.specs.Headers as Layouts;
ghost use Rattle.model.specs.Answers.{told};
ghost use Rattle.model.specs.Window.{window};
ghost use Rattle.crossing.specs.Numbers as Numbers;

use crossing::{CAnswer, CRecord, CWindow, record_of, window_of, word_at};

// Where the fields of the object that a root names stand, of either kind; or SHAPE, ROOT or OBJECT, and no
// words.
#[unsafe(no_mangle)]
pub extern "C" fn phachunoi_open(
    heap: &[u32],
    roots: &[u32],
    record: CRecord,
    object: usize,
) -> CWindow
    ensures { result
        ≡ Numbers.opened (window Layouts.tuple object) heap.now roots.now «record» }
{
    window_of(views::place::find(heap, roots, record_of(record), object))
}

// The word at a field number; or FIELD. It goes by the window's numbers, whatever they are, and by nothing
// else.
#[unsafe(no_mangle)]
pub extern "C" fn phachunoi_word(heap: &[u32], window: CWindow, field: usize) -> CAnswer
    ensures { result ≡ Numbers.answer_of (told (Numbers.word_at heap.now window field)) }
{
    word_at(heap, window, field)
}
