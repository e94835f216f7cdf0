// An integer of a text, and its word.
ghost use Rattle.std.specs.Prelude.{ℕ, ◌<◌, ℤ, length};
ghost use Rattle.reader_placing.specs.Numerals.{DigitsAt, DigitsRead, IntegerAt, IntegerRead};

use reader_numerals::Numeral;
use words::texts::{MINUS, ZERO};
use words::values::LAST_WORD;

// The number whose digits stand at a place. Some byte that is no digit follows them and ends the loop: over a
// range, the text's length would be asked for at each digit too.
fn magnitude(text: &[u8], at: usize) -> Numeral
    requires { (n : ℕ) × DigitsAt text.now at n }
    ensures { (n : ℕ) → DigitsAt text.now at n → DigitsRead at n result.number result.end }
{
    let mut number: u32 = 0;
    let mut place = at;
    let mut byte = text[place];
    while byte.is_ascii_digit() {
        number = 10 * number + (byte - ZERO) as u32;
        place += 1;
        byte = text[place];
    }
    Numeral { number, end: place }
}

// The word of the integer at a place, into a field. Answers the place behind the integer.
pub fn integer(heap: &mut [u32], text: &[u8], field: usize, at: usize) -> usize
    requires { (field < length heap.old) × ((v : ℤ) × IntegerAt text.now at v) }
    ensures { (v : ℤ) → IntegerAt text.now at v
        → IntegerRead heap.old field at v result heap.new }
{
    if text[at] == MINUS {
        let below = magnitude(text, at + 1);
        heap[field] = LAST_WORD - 2 * (below.number - 1);
        return below.end;
    }
    let above = magnitude(text, at);
    heap[field] = 2 * above.number + 1;
    above.end
}
