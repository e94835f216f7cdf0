// The fields of each tuple of a text, counted.
ghost use Rattle.std.specs.Prelude.{◌≡◌};
ghost use Rattle.model.specs.Trees.{Forest};
ghost use Rattle.model.specs.ReadFaults as Faults;
ghost use Rattle.reader_placing.specs.Counting.{Countable, CountsKept};

use reader_judging::values::is_opener;
use words::texts::{CLOSER, COMMA, MAX_DEPTH, ONE_CLOSER};

fn is_closer(byte: u8) -> bool
    ensures { result ≡ Faults.closes byte }
{
    byte == CLOSER || byte == ONE_CLOSER
}

// Fills the words before `end`, from the right, with the counts of all tuples, in the order in which the
// tuples open. Answers where the first stands. The text is taken backwards: a closer says that there is a
// field, each comma that there is one more, and an opener with a closer right behind it that there was none.
pub fn count_fields(heap: &mut [u32], text: &[u8], end: usize) -> usize
    requires { (g : Forest) × Countable heap.old text.now end g }
    ensures { (g : Forest) → Countable heap.old text.now end g
        → CountsKept heap.old end g result heap.new }
{
    // An array and its top: the library has no memory of its own.
    let mut open: [u32; MAX_DEPTH] = [0; MAX_DEPTH];
    let mut top: usize = 0;
    let mut slot = end;
    for place in (0..text.len()).rev() {
        let byte = text[place];
        if byte.is_ascii_digit() {
            continue;
        }
        if byte == COMMA {
            open[top - 1] += 1;
            continue;
        }
        if is_closer(byte) {
            open[top] = 1;
            top += 1;
            continue;
        }
        if is_opener(byte) {
            top -= 1;
            slot -= 1;
            if text[place + 1] == CLOSER {
                heap[slot] = 0;
                continue;
            }
            heap[slot] = open[top];
        }
    }
    slot
}
