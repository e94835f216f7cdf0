// A text that is known to be a tuple's, laid out in the heap: the last step of reading, after the text was
// judged and the words that it fills were found free.
//
// A tuple's header comes before its fields, and how many they are shows only at its closer. So the counts are
// taken first, by one loop over the text from its end; they are kept in the last of the words that the text
// will fill. An object that is placed never reaches a count that is still to be used, since each tuple that
// is left takes a word at least.
#![tactic(auto)]

ghost use Rattle.model.specs.Trees.{Forest};
ghost use Rattle.reader_placing.specs.Laying.{LaysOut, LaidFrom};

pub mod counts;
pub mod numerals;
pub mod values;

use counts::count_fields;
use values::tuple;
use words::texts::MAX_DEPTH;

// The objects of a tuple's text from the index `free` on, each before those that its fields name. The text
// fills `words` words.
pub fn lay(heap: &mut [u32], text: &[u8], free: usize, words: usize)
    requires { (g : Forest) × LaysOut heap.old text.now free words g }
    ensures { (g : Forest) → LaysOut heap.old text.now free words g
        → LaidFrom heap.old free words g heap.new }
{
    let slot = count_fields(heap, text, free + words);
    tuple(heap, text, 0, free, slot, MAX_DEPTH - 1);
}
