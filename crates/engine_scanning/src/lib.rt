// The scan of the copies: the fields of traced objects are renamed, raw words are passed at once.
#![tactic(auto)]

ghost use Rattle.std.specs.Prelude.{◌≡◌, ◌+◌, ◌-◌, ◌≤◌, length};
ghost use Rattle.model.specs.Limits.{max_fields};
ghost use Rattle.model.specs.Headers.{tuple};
ghost use Rattle.model.specs.Objects.{size};
ghost use Rattle.engine_scanning.specs.Scanning.{scan, between, stands, after, swept, ended, stepped};
ghost use Rattle.engine_scanning.specs.Scanning.{field_passed, run};
ghost use Rattle.engine_scanning.specs.Scanning.{MayPassField, MayPassFields, MayPassObject, SafeRun};

use engine_moving::{Met, Renamed, Swept};
use model::Index;
use words::tuple::Tuple;

// Where the scan stands between two objects: the next one, and what the fields before it led to.
#[derive(Clone, Copy)]
pub struct Passed {
    pub next: Index,
    pub swept: Swept,
}

// Renames the field at an index. Only a field that named an object is written.
fn pass_field(heap: &mut [u32], field: Index, free: Index) -> Renamed
    requires { MayPassField tuple heap.old field.0 free.0 }
    ensures { stepped heap.new result.free.0 result.met
        ≡ field_passed tuple heap.old field.0 free.0 }
{
    let at = field.0;
    let word = heap[at];
    let renamed = engine_moving::rename(heap, word, free);
    if renamed.met != Met::Plain {
        heap[at] = renamed.word;
    }
    renamed
}

// Renames the n fields from an index on, and counts what they lead to.
fn pass_fields(heap: &mut [u32], first: Index, n: usize, before: Swept) -> Swept
    requires { MayPassFields tuple heap.old first.0 n before.free.0 before.tally }
    ensures { after heap.new (between (first.0 + n) result.free.0 result.tally)
        ≡ run tuple n heap.old (scan first.0 n 0 before.free.0 before.tally) }
{
    let mut so_far = before;
    for at in first.0..first.0 + n {
        let renamed = pass_field(heap, Index(at), so_far.free);
        so_far = so_far.past(renamed);
    }
    so_far
}

// The words of an object of n fields. One with no field is an object too, its header 0, and the scan goes on
// behind it.
fn size_of(n: usize) -> usize
    requires { n ≤ max_fields }
    ensures { result ≡ n + 1 }
{
    n + 1
}

// Passes the next object.
fn pass_object(heap: &mut [u32], before: Passed) -> Passed
    requires { MayPassObject tuple heap.old before.next.0 before.swept.free.0 before.swept.tally }
    ensures { after heap.new (stands result)
        ≡ run tuple (size tuple heap.old before.next.0) heap.old (stands before) }
{
    let at = before.next.0;
    let header = heap[at];
    let n = Tuple::count_of(header);
    let next = Index(at + size_of(n));
    if Tuple::is_traced(header) {
        let swept = pass_fields(heap, Index(at + 1), n, before.swept);
        return Passed { next, swept };
    }
    Passed { next, ..before }
}

// Passes objects until the scan has met the free words, which each object may move on: no range is known
// before. Answers the word past the copies.
pub fn pass_objects(heap: &mut [u32], new: Index, before: Swept) -> Swept
    requires { SafeRun tuple (length heap.old - new.0)
        heap.old (between new.0 before.free.0 before.tally) }
    ensures { swept heap.new result.free.0 result.tally
        ≡ ended (run tuple (length heap.old - new.0)
        heap.old (between new.0 before.free.0 before.tally)) }
{
    let mut so_far = Passed {
        next: new,
        swept: before,
    };
    while so_far.next.0 < so_far.swept.free.0 {
        so_far = pass_object(heap, so_far);
    }
    so_far.swept
}
