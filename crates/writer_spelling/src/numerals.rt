// An integer's bytes: its digits are counted, and then stored from the right.
ghost use Rattle.std.specs.Prelude.{◌≡◌, map, ◌+◌, ◌≤◌, length};
ghost use Rattle.std.proofs.lemmas.List.Edits.{sets};
ghost use Rattle.model.specs.Values.{untag};
ghost use Rattle.model.specs.Texts.{byte, digits, integer_text};
ghost use Rattle.writer_measuring.specs.Numerals.{padded};
ghost use Rattle.writer_spelling.specs.Going.{reached, goes};

use words::texts::{MINUS, ZERO};
use words::values::{LAST_WORD, NEGATIVE};
use writer_measuring::numerals::digit_count;

// The last `count` digits of a number, stored from the right.
fn store_digits(text: &mut [u8], at: usize, count: usize, number: u32)
    requires { at + count ≤ length text.old }
    ensures { text.new ≡ sets text.old at (padded count number) }
{
    let mut rest = number;
    for place in (at..at + count).rev() {
        text[place] = ZERO + (rest % 10) as u8;
        rest /= 10;
    }
}

// A natural number's digits, for which there is room. It answers the next place.
fn spell_natural(text: &mut [u8], at: usize, number: u32) -> usize
    requires { at + length (digits number) ≤ length text.old }
    ensures { reached result text.new ≡ goes (map byte (digits number)) at text.old }
{
    let count = digit_count(number);
    store_digits(text, at, count, number);
    at + count
}

// The same of the integer that an odd word holds.
pub(crate) fn spell_integer(text: &mut [u8], at: usize, word: u32) -> usize
    requires { at + length (integer_text (untag word)) ≤ length text.old }
    ensures { reached result text.new
        ≡ goes (map byte (integer_text (untag word))) at text.old }
{
    if word < NEGATIVE {
        return spell_natural(text, at, word / 2);
    }
    text[at] = MINUS;
    spell_natural(text, at + 1, (LAST_WORD - word) / 2 + 1)
}
