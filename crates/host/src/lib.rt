// For hosts that keep one heap for their whole run: each call over a heap record in the host's own variable.
// Nothing in the library calls these. No call has a `requires`: each answers for every heap, roots and record
// that it is lent, and its promise is one equation to the call's definition in `model`.
#![tactic(auto)]

ghost use Rattle.std.specs.Prelude.{◌≡◌};

use model::{Answer, Answered, Record, Refusal};

pub mod fields;
pub mod roots;
pub mod texts;
pub mod whole;

// Of a call that may leave another record: the host's variable gets it.
pub(crate) fn hand_back(done: Answered, record: &mut Record) -> Result<Answer, Refusal>
    ensures { (result ≡ done.answer) × («record».new ≡ done.«record») }
{
    *record = done.record;
    done.answer
}
