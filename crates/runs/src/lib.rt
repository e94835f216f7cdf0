// Runs of words inside one lent slice: cleared, copied, tested for 0. Few words are done straight, since most
// objects are small.
#![tactic(auto)]

ghost use Rattle.std.specs.Prelude.{◌≡◌, ◌+◌, ◌≤◌, eqb, length};
ghost use Rattle.model.specs.Values.{is_null};
ghost use Rattle.model.specs.Soundness.{all};
ghost use Rattle.runs.specs.Runs.{cleared, copied_run, Apart};

fn clear_few(heap: &mut [u32], from: usize, n: usize)
    requires { (from + n ≤ length heap.old) × (n ≤ 4) }
    ensures { heap.new ≡ cleared heap.old from n }
{
    if n == 0 {
        return;
    }
    heap[from] = 0;
    if n == 1 {
        return;
    }
    heap[from + 1] = 0;
    if n == 2 {
        return;
    }
    heap[from + 2] = 0;
    if n == 3 {
        return;
    }
    heap[from + 3] = 0;
}

// Clears n words. More than four go in a loop: `fill` writes the last word apart, eight instructions more.
pub fn clear(heap: &mut [u32], from: usize, n: usize)
    requires { from + n ≤ length heap.old }
    ensures { heap.new ≡ cleared heap.old from n }
{
    if n <= 4 {
        clear_few(heap, from, n);
        return;
    }
    for word in heap[from..from + n].iter_mut() {
        *word = 0;
    }
}

fn copy_few(heap: &mut [u32], from: usize, to: usize, n: usize)
    requires { (from + n ≤ length heap.old) × (to + n ≤ length heap.old) × (n ≤ 4) }
    ensures { heap.new ≡ copied_run heap.old from to n }
{
    if n == 0 {
        return;
    }
    heap[to] = heap[from];
    if n == 1 {
        return;
    }
    heap[to + 1] = heap[from + 1];
    if n == 2 {
        return;
    }
    heap[to + 2] = heap[from + 2];
    if n == 3 {
        return;
    }
    heap[to + 3] = heap[from + 3];
}

// Four words at once: all are read before one is written.
fn copy_four(heap: &mut [u32], from: usize, to: usize)
    requires { (from + 4 ≤ length heap.old) × (to + 4 ≤ length heap.old) × Apart from to 4 }
    ensures { heap.new ≡ copied_run heap.old from to 4 }
{
    let one = heap[from];
    let two = heap[from + 1];
    let three = heap[from + 2];
    let four = heap[from + 3];
    heap[to] = one;
    heap[to + 1] = two;
    heap[to + 2] = three;
    heap[to + 3] = four;
}

fn copy_eight(heap: &mut [u32], from: usize, to: usize)
    requires { (from + 8 ≤ length heap.old) × (to + 8 ≤ length heap.old) × Apart from to 8 }
    ensures { heap.new ≡ copied_run heap.old from to 8 }
{
    copy_four(heap, from, to);
    copy_four(heap, from + 4, to + 4);
}

// Eight words or more: by eights, and the last eight once more, so that no word is left over.
fn copy_eights(heap: &mut [u32], from: usize, to: usize, n: usize)
    requires { (from + n ≤ length heap.old) × (to + n ≤ length heap.old) × Apart from to n
        × (8 ≤ n) }
    ensures { heap.new ≡ copied_run heap.old from to n }
{
    let last = n - 8;
    for i in (0..last).step_by(8) {
        copy_eight(heap, from + i, to + i);
    }
    copy_eight(heap, from + last, to + last);
}

// Copies n words to where none of them stands.
pub fn copy(heap: &mut [u32], from: usize, to: usize, n: usize)
    requires { (from + n ≤ length heap.old) × (to + n ≤ length heap.old) × Apart from to n }
    ensures { heap.new ≡ copied_run heap.old from to n }
{
    if n <= 4 {
        copy_few(heap, from, to, n);
        return;
    }
    if n <= 8 {
        let last = n - 4;
        copy_four(heap, from, to);
        copy_four(heap, from + last, to + last);
        return;
    }
    copy_eights(heap, from, to, n);
}

// The bits that any of the words has. There is no way out of the loop, so that it takes several words at a
// time.
fn bits(words: &[u32]) -> u32
    ensures { eqb result 0 ≡ all is_null words.now }
{
    words.iter().fold(0, |bits, word| bits | word)
}

// Whether the words are all 0. It stops at the first 64 of them that are not. Each caller takes it in: by a
// call the check of a heap of few words takes 3 % more instructions.
#[inline(always)]
pub fn all_zero(words: &[u32]) -> bool
    ensures { result ≡ all is_null words.now }
{
    let mut left = words;
    while let Some((first, rest)) = left.split_first_chunk::<64>() {
        if bits(first) != 0 {
            return false;
        }
        left = rest;
    }
    bits(left) == 0
}
