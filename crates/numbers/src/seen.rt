// What inspect tells of a root: as its answer, or with a place of its own for each number.
ghost use Rattle.std.specs.Prelude.{◌≡◌, Result};
ghost use Rattle.model.specs.declared.Answer.{Answer};
ghost use Rattle.model.specs.declared.Answer.TheVariants as Says;
ghost use Rattle.model.specs.declared.Refusal.{Refusal};
ghost use Rattle.model.specs.Answers.{told};
ghost use Rattle.numbers.specs.Places.{seen_of};

use super::number;
use model::{Answer, Kind, Refusal};

// A form in which inspect tells what a root holds, or why it refuses. It is put together once it is known
// which, so that no test comes after.
pub trait Shown {
    ghost of: { Result Answer Refusal → Self };

    fn null() -> Self
        ensures { result ≡ of (Ok Says.Null) };

    fn integer(value: i32) -> Self
        ensures { result ≡ of (Ok (Says.Integer value)) };

    fn object(kind: Kind, fields: u32) -> Self
        ensures { result ≡ of (Ok (Says.Object kind fields)) };

    fn code(word: u32) -> Self
        ensures { result ≡ of (Ok (Says.Code word)) };

    fn refused(refusal: Refusal) -> Self
        ensures { result ≡ of (Err refusal) };
}

impl Shown for Result<Answer, Refusal> {
    ghost of = { λ answer. answer };

    fn null() -> Self {
        Ok(Answer::Null)
    }

    fn integer(value: i32) -> Self {
        Ok(Answer::Integer(value))
    }

    fn object(kind: Kind, fields: u32) -> Self {
        Ok(Answer::Object(kind, fields))
    }

    fn code(word: u32) -> Self {
        Ok(Answer::Code(word))
    }

    fn refused(refusal: Refusal) -> Self {
        Err(refusal)
    }
}

// The numbers of document 01, a place for each.
#[derive(Clone, Copy, Default)]
pub struct Seen {
    // The refusal's number, 0 for none.
    pub refusal: u32,
    // 0 null, 1 an integer, 2 a traced object, 3 an untraced one, 4 a code word.
    pub holds: u32,
    pub integer: i32,
    pub count: u32,
    pub code: u32,
}

impl Shown for Seen {
    ghost of = { λ answer. seen_of (told answer) };

    fn null() -> Self {
        Seen::default()
    }

    fn integer(value: i32) -> Self {
        Seen {
            holds: 1,
            integer: value,
            ..Seen::default()
        }
    }

    fn object(kind: Kind, fields: u32) -> Self {
        let holds = match kind {
            Kind::Traced => 2,
            Kind::Untraced => 3,
        };
        Seen {
            holds,
            count: fields,
            ..Seen::default()
        }
    }

    fn code(word: u32) -> Self {
        Seen {
            holds: 4,
            code: word,
            ..Seen::default()
        }
    }

    fn refused(refusal: Refusal) -> Self {
        Seen {
            refusal: number(refusal),
            ..Seen::default()
        }
    }
}
