// What is left or why not, in one number. A `Result` of both has three parts, a tag, a refusal and a room,
// and is returned through memory, where one number is returned in a register. With the room behind a
// reference and a `Result` of no more than the refusal, a text takes 6 to 12 % more instructions.
ghost use Rattle.std.specs.Prelude.{◌≡◌, ◌<◌, ℕ, IfOk};
ghost use Rattle.writer_measuring.specs.Packing.{limit, told_of, refusal_of};

use model::Refusal;

// No text is as long.
const REFUSED: usize = 9223372036854775808;

#[derive(Clone, Copy)]
pub struct Packed(usize);

fn refusal_of(number: usize) -> Refusal
    ensures { result ≡ refusal_of number }
{
    match number {
        1 => Refusal::Shape,
        2 => Refusal::Root,
        3 => Refusal::Count,
        4 => Refusal::Range,
        5 => Refusal::Object,
        6 => Refusal::Kind,
        7 => Refusal::Field,
        8 => Refusal::Damaged,
        9 => Refusal::Room,
        10 => Refusal::Value,
        11 => Refusal::Deep,
        _ => Refusal::Text,
    }
}

impl Packed {
    #[inline(always)]
    pub fn of(left: Result<usize, Refusal>) -> Packed
        requires { IfOk left (λ (n : ℕ). n < limit) }
        ensures { told_of result.0 ≡ left }
    {
        match left {
            Ok(room) => Packed(room),
            Err(why) => Packed(REFUSED + why as usize),
        }
    }

    pub fn told(self) -> Result<usize, Refusal>
        ensures { result ≡ told_of self.0 }
    {
        if self.0 < REFUSED {
            return Ok(self.0);
        }
        Err(refusal_of(self.0 - REFUSED))
    }
}
