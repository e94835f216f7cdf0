// The bytes of a value that was measured. Every byte has room and every word is an integer's or names a
// tuple, so that nothing is tested; the ends of the used part and the levels are what it was measured by, and
// only the contracts have a use for them.
//
// A value's writer and a tuple's call each other, with one level fewer each time round, and the value's is
// taken into the loop over a tuple's fields, as in `writer_measuring`.
#![tactic(auto)]

ghost use Rattle.std.specs.Prelude.{◌≡◌, map, ◌+◌, ◌≤◌, ◌<◌, length};
ghost use Rattle.model.specs.Texts.{byte, max_depth, value_pieces};
ghost use Rattle.model.specs.Headers.{tuple};
ghost use Rattle.model.specs.Objects.{field_count};
ghost use Rattle.writer_measuring.specs.Tuples.{no_fields, lead, closer_of};
ghost use Rattle.writer_measuring.specs.Parts.{form_by, object_by};
ghost use Rattle.writer_spelling.specs.Going.{reached, goes, Arrives};

use model::Address;
use words::texts::{CLOSER, COMMA, EQUALS, MAX_DEPTH, ONE, ONE_CLOSER, ONE_OPENER, OPENER};
use words::tuple::Tuple;
use writer_measuring::used::UsedPart;

pub mod numerals;

use numerals::spell_integer;

// `()`, for which there is room. It answers the next place, as all here do.
fn spell_none(text: &mut [u8], at: usize) -> usize
    requires { at + 2 ≤ length text.old }
    ensures { reached result text.new ≡ goes (map byte no_fields) at text.old }
{
    text[at] = OPENER;
    text[at + 1] = CLOSER;
    at + 2
}

// The lead of a field: what stands before it.
fn spell_lead(text: &mut [u8], at: usize, count: usize, field: usize) -> usize
    requires { at + length (lead count field) ≤ length text.old }
    ensures { reached result text.new
        ≡ goes (map byte (lead count field)) at text.old }
{
    if count == 1 {
        text[at] = ONE_OPENER;
        text[at + 1] = ONE;
        text[at + 2] = EQUALS;
        return at + 3;
    }
    if field == 0 {
        text[at] = OPENER;
        return at + 1;
    }
    text[at] = COMMA;
    at + 1
}

fn closer_of(count: usize) -> u8
    ensures { result ≡ closer_of count }
{
    if count == 1 {
        return ONE_CLOSER;
    }
    CLOSER
}

// What a root's word holds, from the first byte on.
pub fn spell_root(used: &UsedPart, text: &mut [u8], word: u32) -> usize
    requires { Arrives (goes (value_pieces (form_by used.now) max_depth word) 0 text.old) }
    ensures { reached result text.new ≡ goes (value_pieces (form_by used.now) max_depth word) 0 text.old }
{
    spell(used, text, 0, word, MAX_DEPTH)
}

// What a word holds, with so many levels left.
#[inline(always)]
#[cycle(spell_spell_tuple)]
fn spell(used: &UsedPart, text: &mut [u8], at: usize, word: u32, depth: usize) -> usize
    requires { Arrives (goes (value_pieces (form_by used.now) depth word) at text.old) }
    ensures { reached result text.new ≡ goes (value_pieces (form_by used.now) depth word) at text.old }
{
    if word % 2 == 1 {
        return spell_integer(text, at, word);
    }
    let object = Tuple::index_of(Address(word)).0;
    spell_tuple(used, text, at, object, depth - 1)
}

// The tuple of an object's fields, whose values have so many levels left.
#[cycle(spell_spell_tuple)]
fn spell_tuple(used: &UsedPart, text: &mut [u8], at: usize, object: usize, depth: usize) -> usize
    requires inside { object + field_count tuple used.now.heap.now object < used.now.free }
    requires room { Arrives (goes (object_by used.now depth object) at text.old) }
    ensures { reached result text.new ≡ goes (object_by used.now depth object) at text.old }
{
    let count = Tuple::count_of(used.heap[object]);
    if count == 0 {
        return spell_none(text, at);
    }
    let mut place = at;
    let first = object + 1;
    for (field, word) in used.heap[first..first + count].iter().enumerate() {
        let from = spell_lead(text, place, count, field);
        place = spell(used, text, from, *word, depth);
    }
    text[place] = closer_of(count);
    place + 1
}
