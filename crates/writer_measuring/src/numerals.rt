// How many bytes an integer has. Its digits are counted by comparisons, three steps a digit: std's `ilog10`
// takes ten steps for any number, which is more for the short ones.
ghost use Rattle.std.specs.Prelude.{◌≡◌, ◌≤◌, length};
ghost use Rattle.model.specs.Values.{untag};
ghost use Rattle.model.specs.Texts.{digits, integer_text};
ghost use Rattle.writer_measuring.specs.Numerals.{padded};

use words::values::{LAST_WORD, NEGATIVE};

// How many decimal digits a number has, with no leading zeros.
pub fn digit_count(number: u32) -> usize
    ensures is { digits number ≡ padded result number }
    ensures few { result ≤ 10 }
{
    if number < 10 {
        return 1;
    }
    if number < 100 {
        return 2;
    }
    if number < 1000 {
        return 3;
    }
    if number < 10000 {
        return 4;
    }
    if number < 100000 {
        return 5;
    }
    if number < 1000000 {
        return 6;
    }
    if number < 10000000 {
        return 7;
    }
    if number < 100000000 {
        return 8;
    }
    if number < 1000000000 {
        return 9;
    }
    10
}

// The number of bytes of the integer that an odd word holds.
pub fn integer_bytes(word: u32) -> usize
    ensures { result ≡ length (integer_text (untag word)) }
{
    if word < NEGATIVE {
        return digit_count(word / 2);
    }
    digit_count((LAST_WORD - word) / 2 + 1) + 1
}
