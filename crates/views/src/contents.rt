// What a root holds, as an answer and in numbers.
ghost use Rattle.std.specs.Prelude.{◌≡◌, ◌<◌, length};
ghost use Rattle.model.specs.Words.{at, state_of};
ghost use Rattle.model.specs.Headers as Layouts;
ghost use Rattle.model.specs.Objects.{index};
ghost use Rattle.model.specs.Answers.{told};
ghost use Rattle.model.specs.Agreements.{kept};
ghost use Rattle.model.specs.Calls as Calls;
ghost use Rattle.numbers.specs.Places.{seen_of};
ghost use Rattle.views.specs.Sorts.{sort_of};

use integers::untag;
use model::{Address, Answer, Record, Refusal};
use naming::names;
use numbers::seen::{Seen, Shown};
use words::admission::admit;
use words::tuple::Tuple;
use words::values::is_code;

// What a root holds, by its sort. No number of the answer is in it: an enum that carries one goes through
// memory, and `tell` is to answer without.
#[derive(Clone, Copy)]
pub enum Sort {
    Null,
    Integer,
    Code,
    Object,
}

// The sort of what a root holds, or why the call is refused. Always inlined: compiled by itself, it tells its
// last two answers apart without a jump, and `tell` takes two instructions more for a code word.
#[inline(always)]
fn sort_of(heap: &[u32], roots: &[u32], record: Record, root: usize) -> Result<Sort, Refusal>
    ensures { result ≡ sort_of Layouts.tuple root (state_of heap.now roots.now «record») }
{
    admit(heap, roots, record, root)?;
    let word = roots[root];
    if word % 2 == 1 {
        return Ok(Sort::Integer);
    }
    if word == 0 {
        return Ok(Sort::Null);
    }
    if names(heap, record, word) {
        return Ok(Sort::Object);
    }
    if is_code(word) {
        return Ok(Sort::Code);
    }
    Err(Refusal::Object)
}

// The header of the object that a word names.
fn header_of(heap: &[u32], word: u32) -> u32
    requires { index Layouts.tuple word < length heap.now }
    ensures { result ≡ at heap.now (index Layouts.tuple word) }
{
    let at = Tuple::index_of(Address(word)).0;
    heap[at]
}

// What `inspect` and `tell` have in common: what a root holds or why the call is refused, put together in
// the form that is asked for.
#[inline]
fn shown<S: Shown>(heap: &[u32], roots: &[u32], record: Record, root: usize) -> S
    ensures { result ≡ S.of (Calls.inspect Layouts.tuple root (state_of heap.now roots.now «record»)).answer }
{
    match sort_of(heap, roots, record, root) {
        Ok(Sort::Null) => S::null(),
        Ok(Sort::Integer) => S::integer(untag(roots[root])),
        Ok(Sort::Code) => S::code(roots[root]),
        Ok(Sort::Object) => {
            let header = header_of(heap, roots[root]);
            let fields = Tuple::count_of(header) as u32;
            S::object(Tuple::kind_of(header), fields)
        }
        Err(refusal) => S::refused(refusal),
    }
}

// What a root holds: null, an integer, a code word, or an object with its kind and field count; or SHAPE,
// ROOT or OBJECT. Leaves all as it was. Of the heap it looks at the header that the root names, and at no
// field.
pub fn inspect(heap: &[u32], roots: &[u32], record: Record, root: usize) -> Result<Answer, Refusal>
    ensures { kept result heap.now roots.now «record»
        ≡ Calls.inspect Layouts.tuple root (state_of heap.now roots.now «record») }
{
    shown(heap, roots, record, root)
}

// The same in document 01's numbers, a place for each, for a host that counts refusals and not names.
pub fn tell(heap: &[u32], roots: &[u32], record: Record, root: usize) -> Seen
    ensures { result
        ≡ seen_of (told (Calls.inspect Layouts.tuple root (state_of heap.now roots.now «record»)).answer) }
{
    shown(heap, roots, record, root)
}
