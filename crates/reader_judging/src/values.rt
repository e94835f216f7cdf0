// A value reader and a tuple reader that call each other, with one level fewer each time round. They answer
// the place behind what they read; None is a refusal, and `found` then holds why: a Result with both comes
// back through memory at each value, 9 % of a read. What they count is added to `found`. A tuple takes no
// more words than it has bytes, so that no sum is too large.
ghost use Rattle.std.specs.Prelude.{◌≡◌, ◌&&◌, ◌+◌, ◌≤◌, ◌<◌, ltb, eqb, length, get_or};
ghost use Rattle.model.specs.ReadFaults as Faults;
ghost use Rattle.model.specs.Reading.{start, opened};
ghost use Rattle.reader_judging.specs.Places.{Room, Tupled, Closes, Reads, Refuses, Whole};
ghost use Rattle.reader_judging.specs.Places.{Stuck, OpensOne, Opened, Closed};

use model::Refusal;
use reader_numerals::integer;
use words::texts::{CLOSER, COMMA, EQUALS, MAX_DEPTH, ONE, ONE_CLOSER, ONE_OPENER, OPENER};

// The words of what was read so far, and after a refusal why.
#[derive(Clone, Copy)]
pub struct Found {
    pub words: usize,
    pub why: Refusal,
}

// Whether a tuple begins.
pub fn is_opener(byte: u8) -> bool
    ensures { result ≡ Faults.opens byte }
{
    byte == OPENER || byte == ONE_OPENER
}

fn is_at(text: &[u8], at: usize, byte: u8) -> bool
    ensures { result ≡ (ltb at (length text.now) && eqb (get_or text.now at 0) byte) }
{
    text.get(at) == Some(&byte)
}

fn refuse(found: &mut Found, why: Refusal) -> Option<usize>
    ensures { (result ≡ None) × (found.new.why ≡ why) }
{
    found.why = why;
    None
}

// A value, with so many levels left. Tuples of one field may stand in each other many times over: they are
// gone through by turns, not by calls.
#[cycle(values)]
fn value(text: &[u8], at: usize, depth: usize, found: &mut Found) -> Option<usize>
    requires { Room 0 text.now at found.old.words }
    ensures { Reads start 0 depth text.now at found.old.words result found.new }
{
    if at == text.len() {
        return refuse(found, Refusal::Value);
    }
    let byte = text[at];
    if !is_opener(byte) {
        return match integer(text, at) {
            Some(read) => Some(read.end),
            None => refuse(found, Refusal::Value),
        };
    }
    if byte != OPENER {
        return singles(text, at, depth, found);
    }
    if depth == 0 {
        return refuse(found, Refusal::Deep);
    }
    tuple(text, at + 1, depth - 1, found)
}

// Whether a tuple of one field begins.
fn opens_one(text: &[u8], at: usize) -> bool
    requires { at ≤ length text.now }
    ensures { OpensOne text.now at result }
{
    is_at(text, at, ONE_OPENER) && is_at(text, at + 1, ONE) && is_at(text, at + 2, EQUALS)
}

// How many tuples of one field stand in each other from a place on, of so many that may.
fn openings(text: &[u8], at: usize, depth: usize) -> usize
    requires { at ≤ length text.now }
    ensures { Opened text.now at depth result }
{
    for levels in 0..depth {
        if !opens_one(text, at + 3 * levels) {
            return levels;
        }
    }
    depth
}

// Whether so many tuples of one field end, one behind the other.
fn are_closed(text: &[u8], at: usize, levels: usize) -> bool
    requires { at ≤ length text.now }
    ensures { Closed text.now at levels result }
{
    for closed in 0..levels {
        if !is_at(text, at + closed, ONE_CLOSER) {
            return false;
        }
    }
    true
}

// Tuples of one field that stand in each other, with what the innermost holds.
#[cycle(values)]
fn singles(text: &[u8], at: usize, depth: usize, found: &mut Found) -> Option<usize>
    requires { Room 0 text.now at found.old.words }
    ensures { Reads start 0 depth text.now at found.old.words result found.new }
{
    let levels = openings(text, at, depth);
    let place = innermost(text, at + 3 * levels, depth - levels, found)?;
    if !are_closed(text, place, levels) {
        return refuse(found, Refusal::Value);
    }
    found.words += 2 * levels;
    Some(place + levels)
}

// A value that is no tuple of one field. It is `value` but for that: one function that both call would be
// called for each integer.
#[cycle(values)]
fn innermost(text: &[u8], at: usize, depth: usize, found: &mut Found) -> Option<usize>
    requires { (Room 0 text.now at found.old.words) × (Stuck text.now at depth) }
    ensures { Reads start 0 depth text.now at found.old.words result found.new }
{
    if at == text.len() {
        return refuse(found, Refusal::Value);
    }
    let byte = text[at];
    if !is_opener(byte) {
        return match integer(text, at) {
            Some(read) => Some(read.end),
            None => refuse(found, Refusal::Value),
        };
    }
    if depth == 0 {
        return refuse(found, Refusal::Deep);
    }
    if byte != OPENER {
        return refuse(found, Refusal::Value);
    }
    tuple(text, at + 1, depth - 1, found)
}

// A tuple of no field, or of two or more, from behind "(", whose values have so many levels left.
#[cycle(values)]
fn tuple(text: &[u8], at: usize, depth: usize, found: &mut Found) -> Option<usize>
    requires { Room 1 text.now at found.old.words }
    ensures { Reads opened 1 depth text.now at found.old.words result found.new }
{
    if is_at(text, at, CLOSER) {
        found.words += 1;
        return Some(at + 1);
    }
    let mut place = at;
    let mut fields: usize = 0;
    loop {
        let next = value(text, place, depth, found)?;
        fields += 1;
        if !is_at(text, next, COMMA) {
            return close(text, next, fields, found);
        }
        place = next + 1;
    }
}

// The closer of a tuple of so many fields, which are two or more.
fn close(text: &[u8], at: usize, fields: usize, found: &mut Found) -> Option<usize>
    requires { found.old.words + fields ≤ at }
    ensures { Closes text.now at fields found.old.words result found.new }
{
    if fields < 2 || !is_at(text, at, CLOSER) {
        return refuse(found, Refusal::Value);
    }
    found.words += fields + 1;
    Some(at + 1)
}

// A text that is a tuple, by its first byte.
pub fn outermost(text: &[u8], first: u8, found: &mut Found) -> Option<usize>
    requires { Tupled text.now first found.old.words }
    ensures { Reads start 0 64 text.now 0 0 result found.new }
{
    if first != OPENER {
        return singles(text, 0, MAX_DEPTH, found);
    }
    tuple(text, 1, MAX_DEPTH - 1, found)
}
