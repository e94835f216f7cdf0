// The soundness check: linear in the words, and with no memory of its own. Each header is marked by a bit in
// the idle half, which has to be 0; roots and fields are held against the marks; then the marks are cleared,
// so that no word differs.
#![tactic(auto)]

ghost use Rattle.std.specs.Prelude.{◌≡◌, ◌≤◌};
ghost use Rattle.model.specs.Words.{state_of};
ghost use Rattle.model.specs.Agreements.{kept};
ghost use Rattle.model.specs.Calls as Calls;
ghost use Rattle.model.specs.Headers.{tuple};
ghost use Rattle.model.specs.Limits.{max_half};
ghost use Rattle.model.specs.Soundness.{sound};
ghost use Rattle.checker_marks.specs.Marks.{marked, cleared_marks};
ghost use Rattle.checker.specs.ByMarks.{Halves, Markable, Judgeable, part_of, is_zero_around};
ghost use Rattle.checker.specs.ByMarks.{all_are_values_by_marks, used_part_sound};

use checker_fields::Objects;
use checker_marks::{Marks, Part, clear_marks, mark_headers};
use checker_values::judge_words;
use model::{Answer, Record, Refusal};
use words::shape;

// Whether each root and each field is a value. The headers are marked.
fn all_are_values(heap: &[u32], roots: &[u32], part: Part) -> bool
    requires { Judgeable tuple heap.now part }
    ensures { result ≡ all_are_values_by_marks tuple heap.now roots.now part }
{
    let from = part.marks.0;
    let marks = Marks {
        bits: &heap[from..],
        free: part.free.0,
    };
    if !judge_words(roots, marks).holds() {
        return false;
    }
    let objects = Objects { words: heap, marks };
    objects.are_all_fields_values(part.first.0)
}

// Whether objects tile the part, and each root and each field is a value. Leaves the marks.
fn mark_and_test(heap: &mut [u32], roots: &[u32], part: Part) -> bool
    requires { Markable heap.old part }
    ensures { (result ≡ used_part_sound tuple heap.old roots.now part)
        × (heap.new ≡ (marked tuple heap.old part).heap) }
{
    let free = part.free.0;
    if mark_headers(heap, part).0 != free {
        return false;
    }
    all_are_values(heap, roots, part)
}

// The same, and the marks are cleared.
fn is_used_part_sound(heap: &mut [u32], roots: &[u32], part: Part) -> bool
    requires { Markable heap.old part }
    ensures { (result ≡ used_part_sound tuple heap.old roots.now part)
        × (heap.new ≡ cleared_marks (marked tuple heap.old part).heap part) }
{
    let sound = mark_and_test(heap, roots, part);
    clear_marks(heap, part);
    sound
}

// Whether word 0, the half of the marks and the words from the free index on are 0.
fn is_zero_around(heap: &[u32], part: Part, half_words: usize) -> bool
    requires { Halves heap.now part half_words }
    ensures { result ≡ is_zero_around heap.now part half_words }
{
    if heap[0] != 0 {
        return false;
    }
    let idle = part.marks.0;
    if !runs::all_zero(&heap[idle..idle + half_words]) {
        return false;
    }
    runs::all_zero(&heap[part.free.0..part.first.0 + half_words])
}

// The used part of a record's half, and its marks in the other half.
fn part_of(half_words: usize, record: Record) -> Part
    requires { half_words ≤ max_half }
    ensures { result ≡ part_of half_words «record» }
{
    Part {
        first: shape::first_of(half_words, record.half),
        free: record.free,
        marks: shape::first_of(half_words, shape::other_half(record.half)),
    }
}

// Whether the heap is sound. No word differs afterwards. For the calls that collect, too.
pub fn is_sound(heap: &mut [u32], roots: &[u32], record: Record) -> bool
    ensures { (result ≡ sound tuple (state_of heap.old roots.now «record»)) × (heap.new ≡ heap.old) }
{
    if shape::bad_shape(heap.len(), roots.len(), record) {
        return false;
    }
    let half_words = shape::half_words(heap.len());
    let part = part_of(half_words, record);
    if !is_zero_around(heap, part, half_words) {
        return false;
    }
    is_used_part_sound(heap, roots, part)
}

// The call check.
pub fn check(heap: &mut [u32], roots: &[u32], record: Record) -> Result<Answer, Refusal>
    ensures { kept result heap.new roots.now «record»
        ≡ Calls.check tuple (state_of heap.old roots.now «record») }
{
    if shape::bad_shape(heap.len(), roots.len(), record) {
        return Err(Refusal::Shape);
    }
    if is_sound(heap, roots, record) {
        return Ok(Answer::Sound);
    }
    Ok(Answer::Unsound)
}
