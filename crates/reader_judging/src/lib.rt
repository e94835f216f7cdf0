// What a text stands for. A reader judges all of it before it changes anything: whether the bytes are a text,
// and how many words its objects take. Nothing is written here.
#![tactic(auto)]

ghost use Rattle.std.specs.Prelude.{◌≡◌, ◌≤◌};
ghost use Rattle.model.specs.Reading.{parsed, most_digits, signed};
ghost use Rattle.reader_judging.specs.Judging.{judged_of};

use model::Refusal;
use reader_numerals::integer;
use words::texts::MINUS;

pub mod values;

use values::{Found, is_opener, outermost};

// An integer, or a tuple with the words that it takes.
#[derive(Clone, Copy)]
pub enum Judged {
    Integer(i32),
    Tuple(usize),
}

// The integer of such digits, after "~" or not.
fn signed_of(negative: bool, number: u32) -> i32
    requires { number ≤ most_digits negative }
    ensures { result ≡ signed negative number }
{
    if !negative {
        return number as i32;
    }
    if number == 0 {
        return 0;
    }
    let below = (number - 1) as i32;
    -1 - below
}

// What the bytes stand for, or why they are no text.
pub fn judge(text: &[u8]) -> Result<Judged, Refusal>
    ensures { result ≡ judged_of (parsed text.now) }
{
    let Some(&first) = text.first() else {
        return Err(Refusal::Value);
    };
    if !is_opener(first) {
        return match integer(text, 0) {
            Some(read) if read.end == text.len() => {
                Ok(Judged::Integer(signed_of(first == MINUS, read.number)))
            }
            _ => Err(Refusal::Value),
        };
    }
    let mut found = Found {
        words: 0,
        why: Refusal::Value,
    };
    match outermost(text, first, &mut found) {
        Some(end) if end == text.len() => Ok(Judged::Tuple(found.words)),
        Some(_) => Err(Refusal::Value),
        None => Err(found.why),
    }
}
