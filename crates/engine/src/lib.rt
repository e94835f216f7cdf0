// Cheney's collection of a sound heap: the roots renamed, the copies scanned until none is left to scan, the
// old words cleared. It is proved equal to the definition of a collection, which knows of no algorithm.
#![tactic(auto)]

ghost use Rattle.std.specs.Prelude.{◌≡◌, true, length};
ghost use Rattle.model.specs.Headers.{tuple};
ghost use Rattle.model.specs.Words.{state_of};
ghost use Rattle.model.specs.Soundness.{sound};
ghost use Rattle.model.specs.Answers.{says};
ghost use Rattle.model.specs.declared.Answer.TheVariants as Says;
ghost use Rattle.engine_moving.specs.Moving.{none_met};
ghost use Rattle.engine.specs.Collecting.{collection};
ghost use Rattle.engine.specs.Evacuation.{emptied, rooted, SafeRoots, evacuated, SafeEvacuation};

use engine_moving::{Swept, Tally};
use model::{Counts, Index, Record};
use words::shape;

// What a collection leaves besides the words: what it counted, and the record.
#[derive(Clone, Copy)]
pub struct Collected {
    pub counts: Counts,
    pub record: Record,
}

// Renames the roots by rising number, and counts what they lead to. Answers the next free word too.
fn visit_roots(heap: &mut [u32], roots: &mut [u32], new: Index) -> Swept
    requires { SafeRoots tuple heap.old roots.old new.0 none_met }
    ensures { emptied heap.new roots.new result.free.0 result.tally
        ≡ rooted tuple heap.old roots.old new.0 none_met }
{
    let mut so_far = Swept {
        free: new,
        tally: Tally::default(),
    };
    for root in roots.iter_mut() {
        let renamed = engine_moving::rename(heap, *root, so_far.free);
        *root = renamed.word;
        so_far = so_far.past(renamed);
    }
    so_far
}

// Copies what the roots reach from the `used` words at `old` to the words at `new`, and clears the old ones.
// Answers the word past the copies, and what was met.
fn evacuate(heap: &mut [u32], roots: &mut [u32], old: Index, used: usize, new: Index) -> Swept
    requires { SafeEvacuation tuple heap.old roots.old old.0 used new.0 }
    ensures { emptied heap.new roots.new result.free.0 result.tally
        ≡ evacuated tuple heap.old roots.old old.0 used new.0 }
{
    // Counted, so that a call which leaves roots out is refused for that alone.
    let count = roots.len();
    let visited = visit_roots(heap, &mut roots[..count], new);
    let passed = engine_scanning::pass_objects(heap, new, visited);
    runs::clear(heap, old.0, used);
    passed
}

// Collects a heap that is known to be sound. Past its free index a sound heap is 0 already: only the used
// words are cleared.
pub fn collect_sound(heap: &mut [u32], roots: &mut [u32], record: Record) -> Collected
    requires { sound tuple (state_of heap.old roots.old «record») ≡ true }
    ensures { says (Says.Live result.counts) (state_of heap.new roots.new result.«record»)
        ≡ collection tuple (state_of heap.old roots.old «record») }
{
    let half_words = shape::half_words(heap.len());
    let half = shape::other_half(record.half);
    let old = shape::first_of(half_words, record.half);
    let new = shape::first_of(half_words, half);
    let used = record.free.0 - old.0;
    let Swept { free, tally } = evacuate(heap, roots, old, used, new);
    let live = (free.0 - new.0) as u32;
    let objects = tally.copied as u32;
    let addresses = (tally.copied + tally.found) as u32;
    Collected {
        counts: Counts {
            live,
            objects,
            addresses,
        },
        record: Record { half, free },
    }
}

// The same, where the first `count` roots count as live: all of them. It is for a call that makes room, of
// which the root that it sets counts too. The number is asked for so that a call with another is refused
// for it alone: where a part of the roots is lent instead, one that has them all is refused as well.
pub fn collect_among(heap: &mut [u32], roots: &mut [u32], count: usize, record: Record) -> Collected
    requires { (count ≡ length roots.old)
        × (sound tuple (state_of heap.old roots.old «record») ≡ true) }
    ensures { says (Says.Live result.counts) (state_of heap.new roots.new result.«record»)
        ≡ collection tuple (state_of heap.old roots.old «record») }
{
    collect_sound(heap, &mut roots[..count], record)
}
