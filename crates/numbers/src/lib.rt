// Answers in document 01's numbers, for hosts that count refusals and not names.
#![tactic(auto)]

ghost use Rattle.std.specs.Prelude.{◌≡◌};
ghost use Rattle.model.specs.declared.Answer.TheVariants as Says;
ghost use Rattle.model.specs.Answers as Answers;

use model::{Answer, Counts, Kind, Refusal, Told};
use seen::Shown;

pub mod seen;

// (No `From`: neither type is this crate's.)
pub fn number(refusal: Refusal) -> u32
    ensures { result ≡ Answers.number refusal }
{
    refusal as u32
}

// Numbers put together, of an answer that carries one number of 32 bits without a sign or none: the refusal's
// or 0, what the root of an inspect holds, and the number that the answer carries.
pub fn tells(refusal: u32, holds: u32, value: u32) -> Told
    ensures { result ≡ Answers.tells refusal holds value }
{
    Told {
        refusal,
        holds,
        value,
        ..Told::default()
    }
}

// The numbers of a text that was written, of its bytes.
pub fn written(length: usize) -> Told
    ensures { result ≡ Answers.told (Ok (Says.Written length)) }
{
    Told {
        length,
        ..Told::default()
    }
}

// The numbers of a collection.
pub fn live(counts: Counts) -> Told
    ensures { result ≡ Answers.told (Ok (Says.Live counts)) }
{
    Told {
        value: counts.live,
        objects: counts.objects,
        addresses: counts.addresses,
        ..Told::default()
    }
}

impl Shown for Told {
    ghost of = { λ answer. Answers.told answer };

    fn null() -> Self {
        Told::default()
    }

    fn integer(value: i32) -> Self {
        Told {
            holds: 1,
            integer: value,
            ..Told::default()
        }
    }

    fn object(kind: Kind, fields: u32) -> Self {
        match kind {
            Kind::Traced => tells(0, 2, fields),
            Kind::Untraced => tells(0, 3, fields),
        }
    }

    fn code(word: u32) -> Self {
        tells(0, 4, word)
    }

    fn refused(refusal: Refusal) -> Self {
        tells(number(refusal), 0, 0)
    }
}

pub fn told(answer: Result<Answer, Refusal>) -> Told
    ensures { result ≡ Answers.told answer }
{
    match answer {
        Ok(Answer::Done) => tells(0, 0, 0),
        Ok(Answer::Live(counts)) => live(counts),
        Ok(Answer::Sound) => tells(0, 0, 1),
        Ok(Answer::Unsound) => tells(0, 0, 0),
        Ok(Answer::Yes) => tells(0, 0, 1),
        Ok(Answer::No) => tells(0, 0, 0),
        Ok(Answer::Null) => Told::null(),
        Ok(Answer::Integer(value)) => Told::integer(value),
        Ok(Answer::Object(kind, fields)) => Told::object(kind, fields),
        Ok(Answer::Code(word)) => Told::code(word),
        Ok(Answer::Number(number)) => tells(0, 0, number),
        Ok(Answer::Written(length)) => written(length),
        Err(refusal) => Told::refused(refusal),
    }
}
