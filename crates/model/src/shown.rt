// How a half, a record and an answer's numbers print.
ghost use Rattle.std.specs.Prelude.{Some};
ghost use Rattle.model.specs.Shown.{half_text, record_text, told_text};

use super::{Half, Record, Told};
use std::fmt;

impl fmt::Display for Half {
    ghost output = { λ x. Some (half_text x) };

    fn fmt<W: fmt::Write>(&self, f: &mut fmt::Formatter<W>) -> fmt::Result {
        match self {
            Half::A => write!(f, "A"),
            Half::B => write!(f, "B"),
        }
    }
}

// "half B free 13"
impl fmt::Display for Record {
    ghost output = { λ x. Some (record_text x) };

    fn fmt<W: fmt::Write>(&self, f: &mut fmt::Formatter<W>) -> fmt::Result {
        write!(f, "half {} free {}", self.half, self.free.0)
    }
}

// Refusal, what the root holds, integer or value, and what else a collection counts, if it met any object:
// "0/1/-1" is the integer -1, "0/0/4/2/3" is P5's collection.
impl fmt::Display for Told {
    ghost output = { λ x. Some (told_text x) };

    fn fmt<W: fmt::Write>(&self, f: &mut fmt::Formatter<W>) -> fmt::Result {
        write!(f, "{}/{}/", self.refusal, self.holds)?;
        if self.holds == 1 {
            return write!(f, "{}", self.integer);
        }
        write!(f, "{}", self.value)?;
        if self.objects == 0 && self.addresses == 0 {
            return Ok(());
        }
        write!(f, "/{}/{}", self.objects, self.addresses)
    }
}
