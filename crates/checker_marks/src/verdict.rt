// A verdict on words: whether all of them are values.
ghost use Rattle.std.specs.Prelude.{◌≡◌, true, ◌&&◌, ◌||◌};
ghost use Rattle.model.specs.Values.{is_odd};
ghost use Rattle.checker_marks.specs.Verdicts.{holds};

use std::ops::{BitAnd, BitOr};

// A number that is odd for yes, so that no jump waits for a word. As a bool it would be cut to one bit after
// each object: in C that takes up to 4 % more instructions for objects of three fields.
#[derive(Clone, Copy)]
pub struct Verdict {
    bits: u32,
}

impl Verdict {
    pub fn yes() -> Verdict
        ensures { holds result ≡ true }
    {
        Verdict { bits: 1 }
    }

    // Yes if the lowest of the bits is set.
    pub fn of_lowest(bits: u32) -> Verdict
        ensures { holds result ≡ is_odd bits }
    {
        Verdict { bits }
    }

    pub fn holds(&self) -> bool
        ensures { result ≡ holds self.now }
    {
        self.bits % 2 == 1
    }
}

impl BitAnd for Verdict {
    type Output = Verdict;

    ghost bitand_gives = { λ a b c. holds c ≡ (holds a && holds b) };

    fn bitand(self, other: Verdict) -> Verdict {
        Verdict {
            bits: self.bits & other.bits,
        }
    }
}

impl BitOr for Verdict {
    type Output = Verdict;

    ghost bitor_gives = { λ a b c. holds c ≡ (holds a || holds b) };

    fn bitor(self, other: Verdict) -> Verdict {
        Verdict {
            bits: self.bits | other.bits,
        }
    }
}
