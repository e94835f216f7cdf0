// What C gives and gets, and the steps between that and the library's types. No enum crosses to C, so that
// each half, kind and refusal is a number there. The steps are functions, and not `From`: most of them ask
// for numbers that fit C's, which `From` cannot.
#![tactic(auto)]

ghost use Rattle.std.specs.Prelude.{◌≡◌};
ghost use Rattle.model.specs.declared.Answer.TheVariants as Says;
ghost use Rattle.model.specs.Answers.{told};
ghost use Rattle.crossing.specs.Numbers as Numbers;
ghost use Rattle.crossing.specs.Crossing.{taken, back, fresh_back, Narrow, NarrowPlace, NarrowSeen};

use model::{Answer, Answered, Half, Index, Place, Record, Refusal};
use numbers::number;
use numbers::seen::Seen;

#[repr(C)]
#[derive(Clone, Copy)]
pub struct CRecord {
    pub half: u32,
    pub free: u32,
}

// Of a call that may leave another record than it was lent: the one to hand to the next call.
#[repr(C)]
#[derive(Clone, Copy)]
pub struct CResult {
    pub refusal: u32,
    pub value: u32,
    pub record: CRecord,
}

#[repr(C)]
#[derive(Clone, Copy)]
pub struct CCollected {
    pub refusal: u32,
    pub live: u32,
    pub objects: u32,
    pub addresses: u32,
    pub record: CRecord,
}

// Of a call that leaves the record that it was lent, so that the host keeps its own.
#[repr(C)]
#[derive(Clone, Copy)]
pub struct CAnswer {
    pub refusal: u32,
    pub value: u32,
}

// Sixteen bits are enough for a refusal's number and for what a root holds, and C gets all in two registers.
#[repr(C)]
#[derive(Clone, Copy)]
pub struct CSeen {
    pub refusal: u16,
    pub kind: u16,
    pub integer: i32,
    pub count: u32,
    pub code: u32,
}

// Of a call that writes a text: its bytes may be more than 32 bits count, and two numbers of one width leave
// no gap between them.
#[repr(C)]
#[derive(Clone, Copy)]
pub struct CWritten {
    pub refusal: usize,
    pub length: usize,
}

// The words of the fields are `count` words of the heap, from the index `first` on.
#[repr(C)]
#[derive(Clone, Copy)]
pub struct CWindow {
    pub refusal: u32,
    pub first: u32,
    pub count: u32,
}

// The record to call with. A free index of 0 is SHAPE in every heap, which a half that is none has to be.
// Half and index are chosen one by one, which takes no jump: every call comes this way.
pub fn record_of(record: CRecord) -> Record
    ensures { result ≡ taken «record» }
{
    let half = if record.half == 0 { Half::A } else { Half::B };
    let given = record.free as usize;
    let free = if 1 < record.half {
        Index(0)
    } else {
        Index(given)
    };
    Record { half, free }
}

pub fn numbers_of(record: Record) -> CRecord
    requires { Narrow «record».free.0 }
    ensures { result ≡ Numbers.numbers_of «record» }
{
    CRecord {
        half: record.half as u32,
        free: record.free.0 as u32,
    }
}

// The record to hand back: a half that is none comes back as it came.
fn record_after(came: CRecord, record: Record) -> CRecord
    requires { Narrow «record».free.0 }
    ensures { result ≡ back came «record» }
{
    if 1 < came.half {
        return came;
    }
    numbers_of(record)
}

pub fn result_of(came: CRecord, done: Answered) -> CResult
    requires { Narrow done.«record».free.0 }
    ensures { result ≡ Numbers.result_of (told done.answer) (back came done.«record») }
{
    let told = numbers::told(done.answer);
    CResult {
        refusal: told.refusal,
        value: told.value,
        record: record_after(came, done.record),
    }
}

// Of a call that is done and names no answer.
pub fn done_with(record: Record) -> CResult
    requires { Narrow «record».free.0 }
    ensures { result ≡ Numbers.result_of (told (Ok Says.Done)) (Numbers.numbers_of «record») }
{
    CResult {
        refusal: 0,
        value: 0,
        record: numbers_of(record),
    }
}

// What fresh returns: the record as it came where it refuses, whatever its half, and else the new one.
pub fn fresh_result_of(came: CRecord, done: Answered) -> CResult
    requires { Narrow done.«record».free.0 }
    ensures { result
        ≡ Numbers.result_of (told done.answer) (fresh_back (told done.answer) came done.«record») }
{
    let told = numbers::told(done.answer);
    let record = if told.refusal == 0 {
        numbers_of(done.record)
    } else {
        came
    };
    CResult {
        refusal: told.refusal,
        value: told.value,
        record,
    }
}

pub fn collected_of(came: CRecord, done: Answered) -> CCollected
    requires { Narrow done.«record».free.0 }
    ensures { result ≡ Numbers.collected_of (told done.answer) (back came done.«record») }
{
    let told = numbers::told(done.answer);
    CCollected {
        refusal: told.refusal,
        live: told.value,
        objects: told.objects,
        addresses: told.addresses,
        record: record_after(came, done.record),
    }
}

pub fn answer_of(answer: Result<Answer, Refusal>) -> CAnswer
    ensures { result ≡ Numbers.answer_of (told answer) }
{
    let told = numbers::told(answer);
    CAnswer {
        refusal: told.refusal,
        value: told.value,
    }
}

// What inspect found, in numbers already: an answer with an integer or a count in it would go through memory.
pub fn seen_of(seen: Seen) -> CSeen
    requires { NarrowSeen seen }
    ensures { result ≡ Numbers.crossed seen }
{
    CSeen {
        refusal: seen.refusal as u16,
        kind: seen.holds as u16,
        integer: seen.integer,
        count: seen.count,
        code: seen.code,
    }
}

pub fn written_of(answer: Result<Answer, Refusal>) -> CWritten
    ensures { result ≡ Numbers.written_of (told answer) }
{
    let told = numbers::told(answer);
    let refusal = told.refusal as usize;
    CWritten {
        refusal,
        length: told.length,
    }
}

pub fn window_of(place: Result<Place, Refusal>) -> CWindow
    requires { NarrowPlace place }
    ensures { result ≡ Numbers.window_of place }
{
    match place {
        Ok(place) => CWindow {
            refusal: 0,
            first: (place.header.0 + 1) as u32,
            count: place.count,
        },
        Err(refusal) => CWindow {
            refusal: number(refusal),
            first: 0,
            count: 0,
        },
    }
}

// The word at a field number; or FIELD. It goes by the window's numbers, whatever they are, and by nothing
// else.
pub fn word_at(heap: &[u32], window: CWindow, field: usize) -> CAnswer
    ensures { result ≡ Numbers.answer_of (told (Numbers.word_at heap.now window field)) }
{
    let count = window.count as usize;
    if count <= field {
        return answer_of(Err(Refusal::Field));
    }
    let at = window.first as usize + field;
    if heap.len() <= at {
        return answer_of(Err(Refusal::Field));
    }
    answer_of(Ok(Answer::Number(heap[at])))
}
