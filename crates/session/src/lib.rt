// One session call, whichever it is, by one match, as in its definition. It is lent the bytes of a text,
// which only write and read look at. Its promise is `step` of the definitions, so that demand 3 speaks about
// this code.
#![tactic(auto)]

ghost use Rattle.std.specs.Prelude.{◌≡◌};
ghost use Rattle.model.specs.Headers as Layouts;
ghost use Rattle.model.specs.Words.{text_state_of};
ghost use Rattle.model.specs.Agreements.{outcome_text};
ghost use Rattle.model.specs.Sessions as Sessions;

use allocator::allocate;
use blind::{copy, same, set_code, set_integer, set_null};
use checker::check;
use collector::collect;
use model::{Answer, Answered, Call, Record, Refusal};
use objects::{load, raw_read, raw_write, store};
use reader::read;
use views::inspect;
use writer::write;

// Of a call that leaves the record.
fn keep(answer: Result<Answer, Refusal>, record: Record) -> Answered
    ensures { result ≡ record { answer = answer; «record» = «record» } }
{
    Answered { answer, record }
}

pub fn step(
    heap: &mut [u32],
    roots: &mut [u32],
    record: Record,
    call: Call,
    text: &mut [u8],
) -> Answered
    ensures { outcome_text result heap.new roots.new text.new
        ≡ Sessions.step Layouts.tuple call (text_state_of heap.old roots.old «record» text.old) }
{
    match call {
        Call::Collect => collect(heap, roots, record),
        Call::Check => keep(check(heap, roots, record), record),
        Call::Allocate { kind, fields, to } => allocate(heap, roots, record, kind, fields, to),
        Call::SetInteger { to, value } => keep(set_integer(heap, roots, record, to, value), record),
        Call::SetNull { to } => keep(set_null(heap, roots, record, to), record),
        Call::SetCode { to, word } => keep(set_code(heap, roots, record, to, word), record),
        Call::Copy { from, to } => keep(copy(heap, roots, record, from, to), record),
        Call::Load { object, field, to } => keep(
            load(heap, roots, record, object, field, to),
            record,
        ),
        Call::Store {
            object,
            field,
            from,
        } => keep(store(heap, roots, record, object, field, from), record),
        Call::RawRead { object, field } => keep(
            raw_read(heap, roots, record, object, field),
            record,
        ),
        Call::RawWrite {
            object,
            field,
            number,
        } => keep(
            raw_write(heap, roots, record, object, field, number),
            record,
        ),
        Call::Same { one, other } => keep(same(heap, roots, record, one, other), record),
        Call::Inspect { root } => keep(inspect(heap, roots, record, root), record),
        Call::Write { root } => keep(write(heap, roots, record, root, text), record),
        Call::Read { to } => read(heap, roots, record, to, text),
    }
}
