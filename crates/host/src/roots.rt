// The calls on roots: set to an integer, to null, to a code word, copy, same, inspect. None changes the
// record.
ghost use Rattle.std.specs.Prelude.{◌≡◌};
ghost use Rattle.model.specs.Headers as Layouts;
ghost use Rattle.model.specs.Words.{state_of};
ghost use Rattle.model.specs.Agreements.{kept};
ghost use Rattle.model.specs.Calls as Calls;

use model::{Answer, Record, Refusal};

// Root `to` gets an integer's word: done, or SHAPE, ROOT or RANGE. Leaves the heap and the record, and looks
// at no heap word.
pub fn set_integer(
    heap: &mut [u32],
    roots: &mut [u32],
    record: &mut Record,
    to: usize,
    value: i64,
) -> Result<Answer, Refusal>
    ensures { kept result heap.new roots.new «record».new
        ≡ Calls.set_integer to value (state_of heap.old roots.old «record».old) }
{
    blind::set_integer(heap, roots, *record, to, value)
}

// Root `to` gets null: done, or SHAPE or ROOT. Leaves the heap and the record, and looks at no heap word.
pub fn set_null(
    heap: &mut [u32],
    roots: &mut [u32],
    record: &mut Record,
    to: usize,
) -> Result<Answer, Refusal>
    ensures { kept result heap.new roots.new «record».new
        ≡ Calls.set_null to (state_of heap.old roots.old «record».old) }
{
    blind::set_null(heap, roots, *record, to)
}

// Root `to` gets a code word: done, or SHAPE, ROOT or RANGE. Leaves the heap and the record, and looks at no
// heap word.
pub fn set_code(
    heap: &mut [u32],
    roots: &mut [u32],
    record: &mut Record,
    to: usize,
    word: u32,
) -> Result<Answer, Refusal>
    ensures { kept result heap.new roots.new «record».new
        ≡ Calls.set_code to word (state_of heap.old roots.old «record».old) }
{
    blind::set_code(heap, roots, *record, to, word)
}

// Root `to` gets root `from`'s word, whatever it is: done, or SHAPE or ROOT. Leaves the heap and the record,
// and looks at no heap word.
pub fn copy(
    heap: &mut [u32],
    roots: &mut [u32],
    record: &mut Record,
    from: usize,
    to: usize,
) -> Result<Answer, Refusal>
    ensures { kept result heap.new roots.new «record».new
        ≡ Calls.copy from to (state_of heap.old roots.old «record».old) }
{
    blind::copy(heap, roots, *record, from, to)
}

// Whether two roots hold equal words: yes or no, or SHAPE or ROOT. Leaves all as it was, and looks at no heap
// word.
pub fn same(
    heap: &mut [u32],
    roots: &mut [u32],
    record: &mut Record,
    one: usize,
    other: usize,
) -> Result<Answer, Refusal>
    ensures { kept result heap.new roots.new «record».new
        ≡ Calls.same one other (state_of heap.old roots.old «record».old) }
{
    blind::same(heap, roots, *record, one, other)
}

// What a root holds: null, an integer, a code word, or an object with its kind and field count; or SHAPE,
// ROOT or OBJECT. Leaves all as it was. Of the heap it looks at the header that the root names, and at no
// field.
pub fn inspect(
    heap: &mut [u32],
    roots: &mut [u32],
    record: &mut Record,
    root: usize,
) -> Result<Answer, Refusal>
    ensures { kept result heap.new roots.new «record».new
        ≡ Calls.inspect Layouts.tuple root (state_of heap.old roots.old «record».old) }
{
    views::inspect(heap, roots, *record, root)
}
