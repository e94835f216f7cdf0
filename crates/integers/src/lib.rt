// Integers and their words: v is held as 2v + 1 in two's complement. Signed numbers are split by their sign
// at once, and all that follows is unsigned.
#![tactic(auto)]

ghost use Rattle.std.specs.Prelude.{◌≡◌};
ghost use Rattle.model.specs.Values as Values;
ghost use Rattle.integers.specs.Tagging.{tagged};

use words::values::{LAST_WORD, MAX_INTEGER};

// The word of an integer in range. Of a negative one, -(below + 1), it is that many pairs below the largest
// word.
pub fn tag(value: i64) -> Option<u32>
    ensures { result ≡ tagged value }
{
    if value < 0 {
        let below = (-1 - value) as u64;
        if below > MAX_INTEGER as u64 {
            return None;
        }
        return Some(LAST_WORD - 2 * below as u32);
    }
    let magnitude = value as u64;
    if magnitude > MAX_INTEGER as u64 {
        return None;
    }
    Some(2 * magnitude as u32 + 1)
}

// The integer that an odd word holds.
pub fn untag(word: u32) -> i32
    ensures { result ≡ Values.untag word }
{
    let upper_bits = word / 2;
    if upper_bits <= MAX_INTEGER {
        return upper_bits as i32;
    }
    let below = (LAST_WORD - word) / 2;
    -1 - below as i32
}
