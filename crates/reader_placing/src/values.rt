// A value reader and a tuple reader that call each other, with one level fewer each time round.
ghost use Rattle.std.specs.Prelude.{◌≡◌};
ghost use Rattle.model.specs.Trees.{Forest, Tree};
ghost use Rattle.reader_placing.specs.Placing.{opener_width, TupleAt, TupleLaid, ValueAt, ValueLaid};

use crate::numerals::integer;
use model::{Index, Kind};
use reader_judging::values::is_opener;
use words::tuple::Tuple;

// Where what follows begins: in the text, in the heap, among the counts.
#[derive(Clone, Copy)]
pub struct Reached {
    pub at: usize,
    pub free: usize,
    pub slot: usize,
}

// The value at a place, its word into a field, and the objects that it is made of from the free index on.
#[cycle(tuple_value)]
pub fn value(heap: &mut [u32], text: &[u8], field: usize, from: Reached, depth: usize) -> Reached
    requires { (t : Tree) × ValueAt heap.old text.now field from.at from.free from.slot depth t }
    ensures { (t : Tree) → ValueAt heap.old text.now field from.at from.free from.slot depth t
        → ValueLaid heap.old field from.at from.free from.slot t result.at result.free result.slot
        heap.new }
{
    if is_opener(text[from.at]) {
        heap[field] = Tuple::address_of(Index(from.free)).0;
        return tuple(heap, text, from.at, from.free, from.slot, depth - 1);
    }
    let behind = integer(heap, text, field, from.at);
    Reached { at: behind, ..from }
}

// The tuple at a place: its header at the index `free`, with the next count, then room for its fields, and
// then each field's value. One byte follows each, a comma or the closer. It takes the parts of a Reached:
// as one argument they go through memory at each tuple, 4 % of a read.
#[cycle(tuple_value)]
pub fn tuple(
    heap: &mut [u32],
    text: &[u8],
    at: usize,
    free: usize,
    slot: usize,
    depth: usize,
) -> Reached
    requires { (g : Forest) × TupleAt heap.old text.now at free slot depth g }
    ensures { (g : Forest) → TupleAt heap.old text.now at free slot depth g
        → TupleLaid heap.old at free slot g result.at result.free result.slot heap.new }
{
    let count = heap[slot] as usize;
    heap[free] = Tuple::header(Kind::Traced, count);
    if count == 0 {
        return Reached {
            at: at + 2,
            free: free + 1,
            slot: slot + 1,
        };
    }
    let end = free + 1 + count;
    let mut reached = Reached {
        at: at + opener_width(count),
        free: end,
        slot: slot + 1,
    };
    for field in free + 1..end {
        reached = value(heap, text, field, reached, depth);
        reached.at += 1;
    }
    reached
}

// The bytes before the first field: `{1=` where it is alone.
fn opener_width(count: usize) -> usize
    ensures { result ≡ opener_width count }
{
    if count == 1 {
        return 3;
    }
    1
}
