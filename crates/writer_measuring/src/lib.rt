// How many bytes are left once a value is written, or why it has no text. A writer asks this before it
// changes anything: nothing is written here.
//
// A value's measurer and a tuple's call each other, with one level fewer each time round. The value's is
// taken into the loop over a tuple's fields, where an integer costs no call, and a tuple answers in one
// number, which is returned in a register.
#![tactic(auto)]

ghost use Rattle.std.specs.Prelude.{◌≡◌, ◌+◌, ◌<◌};
ghost use Rattle.model.specs.Texts.{max_depth, value_pieces};
ghost use Rattle.model.specs.Headers.{tuple};
ghost use Rattle.model.specs.Objects.{field_count};
ghost use Rattle.writer_measuring.specs.Packing.{limit, told_of};
ghost use Rattle.writer_measuring.specs.Measured.{measured, spent};
ghost use Rattle.writer_measuring.specs.Tuples.{lead_bytes};
ghost use Rattle.writer_measuring.specs.Parts.{form_by, nested_by};

use model::Refusal;
use words::texts::MAX_DEPTH;
use words::tuple::Tuple;

pub mod numerals;
mod packed;
pub mod used;

use numerals::integer_bytes;
use packed::Packed;
use used::UsedPart;

// What is left of the room after `count` bytes.
#[inline(always)]
fn spend(room: usize, count: usize) -> Result<usize, Refusal>
    ensures { result ≡ spent room count }
{
    if room < count {
        return Err(Refusal::Text);
    }
    Ok(room - count)
}

// What stands before each field: `{1=` of a field alone, else a parenthesis or a comma.
fn lead_bytes(count: usize) -> usize
    ensures { result ≡ lead_bytes count }
{
    if count == 1 {
        return 3;
    }
    1
}

// What a root's word holds.
pub fn measure_root(used: &UsedPart, room: usize, word: u32) -> Result<usize, Refusal>
    requires { room < limit }
    ensures { result ≡ measured room (value_pieces (form_by used.now) max_depth word) }
{
    measure(used, room, word, MAX_DEPTH)
}

// What a word holds, with so many levels left.
#[inline(always)]
#[cycle(measure_measure_tuple)]
fn measure(used: &UsedPart, room: usize, word: u32, depth: usize) -> Result<usize, Refusal>
    requires { room < limit }
    ensures { result ≡ measured room (value_pieces (form_by used.now) depth word) }
{
    if word % 2 == 1 {
        return spend(room, integer_bytes(word));
    }
    let object = used.find_tuple(word)?;
    measure_tuple(used, room, object, depth).told()
}

// The tuple of an object's fields, with so many levels left: its fields' values have one fewer.
#[cycle(measure_measure_tuple)]
fn measure_tuple(used: &UsedPart, room: usize, object: usize, depth: usize) -> Packed
    requires inside { object + field_count tuple used.now.heap.now object < used.now.free }
    requires small { room < limit }
    ensures { told_of result.0 ≡ measured room (nested_by used.now depth object) }
{
    if depth == 0 {
        return Packed::of(Err(Refusal::Deep));
    }
    let levels = depth - 1;
    let count = Tuple::count_of(used.heap[object]);
    if count == 0 {
        // Both parentheses.
        return Packed::of(spend(room, 2));
    }
    let lead = lead_bytes(count);
    let first = object + 1;
    let mut left = room;
    for word in &used.heap[first..first + count] {
        if left < lead {
            return Packed::of(Err(Refusal::Text));
        }
        match measure(used, left - lead, *word, levels) {
            Ok(next) => left = next,
            Err(why) => return Packed::of(Err(why)),
        }
    }
    Packed::of(spend(left, 1))
}
