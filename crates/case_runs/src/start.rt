// States that several cases start from, S = 8.
use super::state::State;
use model::Half;

// An empty heap.
pub fn empty<const R: usize>(roots: [u32; R]) -> State<17, R> {
    State::new(Half::A, 1, [0; 17], roots)
}

// Words 1 to 6: an object that holds 0, one that names itself and holds 10, one with no fields.
pub fn p5<const R: usize>(roots: [u32; R]) -> State<17, R> {
    let heap = [0, 2, 1, 4, 12, 21, 0, 0, 0, 0, 0, 0, 0, 0, 0, 0, 0];
    State::new(Half::A, 7, heap, roots)
}

// Words that are no heap.
pub fn junk<const R: usize>(free: usize, roots: [u32; R]) -> State<17, R> {
    State::new(Half::A, free, [7; 17], roots)
}
