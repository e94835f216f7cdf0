// A new object at the free index, and whether one fits.
#![tactic(auto)]

ghost use Rattle.std.specs.Prelude.{◌≡◌};
ghost use Rattle.model.specs.Words.{state_of};
ghost use Rattle.model.specs.Headers as Layouts;
ghost use Rattle.model.specs.Changes.{placed};
ghost use Rattle.placing.specs.Placing.{MayPlace, MaySpare, spare_of};

pub mod at_once;

use model::{Index, Kind, Record};
use words::shape;
use words::tuple::Tuple;

// The free words of the current half.
pub fn spare_of(length: usize, record: Record) -> usize
    requires { MaySpare length «record» }
    ensures { result ≡ spare_of length «record» }
{
    let half_words = shape::half_words(length);
    shape::first_of(half_words, record.half).0 + half_words - record.free.0
}

// Writes the header and the zeros at the free index, and the object's address into root `to`. Answers the new
// record.
pub fn place(
    heap: &mut [u32],
    roots: &mut [u32],
    record: Record,
    kind: Kind,
    fields: usize,
    to: usize,
) -> Record
    requires { MayPlace (state_of heap.old roots.old «record») fields to }
    ensures { state_of heap.new roots.new result
        ≡ placed Layouts.tuple kind fields to (state_of heap.old roots.old «record») }
{
    let at = record.free.0;
    heap[at] = Tuple::header(kind, fields);
    // The root first: fewer values are then kept across the clearing.
    roots[to] = Tuple::address_of(record.free).0;
    runs::clear(heap, at + 1, fields);
    Record {
        free: Index(at + (fields + 1)),
        ..record
    }
}
