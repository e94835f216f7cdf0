// An integer of a text: its bytes from a place on.
#![tactic(auto)]

ghost use Rattle.std.specs.Prelude.{◌≡◌, false, ◌≤◌, ◌<◌, length, get_or, MatchOption};
ghost use Rattle.model.specs.ReadFaults as Faults;
ghost use Rattle.reader_numerals.specs.Numerals.{is_first, Counted, NoNatural, NaturalRead};
ghost use Rattle.reader_numerals.specs.Numerals.{NoNumeral, NumeralRead};

use words::texts::{MINUS, ZERO};
use words::values::MAX_INTEGER;

// No integer in range has more digits, so that the range is asked for once.
const MOST_DIGITS: usize = 10;

// The least digit that a number may begin with: no zero leads.
const LEAST_LEADING: u8 = b'1';

// An integer without its sign, and the place behind its bytes.
#[derive(Clone, Copy)]
pub struct Numeral {
    pub number: u32,
    pub end: usize,
}

// The number that the digits from a first one on make, ten of them at most, and the place behind them.
fn digits(text: &[u8], from: usize) -> (u64, usize)
    requires { (from < length text.now) × (is_first (get_or text.now from 0)) }
    ensures { Counted text.now from result.1 result.0 }
{
    let last = text.len().min(from + MOST_DIGITS);
    let mut number = (text[from] - ZERO) as u64;
    for place in from + 1..last {
        let byte = text[place];
        if !byte.is_ascii_digit() {
            return (number, place);
        }
        number = 10 * number + (byte - ZERO) as u64;
    }
    (number, last)
}

// A number with no leading zero, and not above `most`.
fn natural(text: &[u8], from: usize, most: u32) -> Option<Numeral>
    requires { from ≤ length text.now }
    ensures { MatchOption result (NoNatural text.now from most)
        (λ r. NaturalRead text.now from most r.end r.number) }
{
    let Some(&first) = text.get(from) else {
        return None;
    };
    if first < LEAST_LEADING || !first.is_ascii_digit() {
        return None;
    }
    let (number, end) = digits(text, from);
    if number > most as u64 {
        return None;
    }
    Some(Numeral {
        number: number as u32,
        end,
    })
}

// An integer in its range.
pub fn integer(text: &[u8], at: usize) -> Option<Numeral>
    requires { (at < length text.now) × (Faults.opens (get_or text.now at 0) ≡ false) }
    ensures { MatchOption result (NoNumeral text.now at)
        (λ r. NumeralRead text.now at r.end r.number) }
{
    match text[at] {
        ZERO => Some(Numeral {
            number: 0,
            end: at + 1,
        }),
        MINUS => natural(text, at + 1, MAX_INTEGER + 1),
        _ => natural(text, at, MAX_INTEGER),
    }
}
