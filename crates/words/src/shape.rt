// The limits of document 01, the halves of a heap, and the tests behind SHAPE and ROOT. Nothing here looks at
// a heap word.
ghost use Rattle.std.specs.Prelude.{◌≡◌, ◌+◌, ◌^◌, ◌<◌, ◌≤◌, ◌&&◌, [], ◌∷◌, nat_le, nat_lt};
ghost use Rattle.model.specs.Limits.{max_half};
ghost use Rattle.model.specs.Words.{half_words_of, other, first_of};
ghost use Rattle.model.specs.Shape.{bad_length, bad_shape_of};
ghost use Rattle.model.specs.Admission.{no_roots};

use model::{Half, Index, Record};

pub const MAX_HALF: usize = 1048576;

pub const MAX_ROOTS: usize = 65536;

pub const MAX_FIELDS: usize = 1073741823;

pub fn other_half(half: Half) -> Half
    ensures { result ≡ other half }
{
    match half {
        Half::A => Half::B,
        Half::B => Half::A,
    }
}

// S: the words of a half, in a heap of a good length.
pub fn half_words(length: usize) -> usize
    requires { 1 ≤ length }
    ensures { result ≡ half_words_of length }
{
    (length - 1) / 2
}

// The first word of a half of `half_words` words.
pub fn first_of(half_words: usize, half: Half) -> Index
    requires { half_words ≤ max_half }
    ensures { result.0 ≡ first_of half_words half }
{
    match half {
        Half::A => Index(1),
        Half::B => Index(half_words + 1),
    }
}

// Whether an index is one of the `count` from `first` on. One test does for both ends, since an index below
// the first wraps round.
pub fn in_run(at: usize, first: usize, count: usize) -> bool
    requires { first + count < 2 ^ 64 }
    ensures { result ≡ (nat_le first at && nat_lt at (first + count)) }
{
    at.wrapping_sub(first) < count
}

// The part of SHAPE that fresh gives.
pub fn bad_length(length: usize) -> bool
    ensures { result ≡ bad_length length }
{
    if length % 2 == 0 {
        return true;
    }
    !in_run(length / 2, 1, MAX_HALF)
}

// SHAPE. The halves mean nothing before the length is known to be good.
pub fn bad_shape(length: usize, root_count: usize, record: Record) -> bool
    ensures { result ≡ bad_shape_of length root_count «record» }
{
    if MAX_ROOTS < root_count {
        return true;
    }
    if bad_length(length) {
        return true;
    }
    let half_words = half_words(length);
    let first = first_of(half_words, record.half).0;
    !in_run(record.free.0, first, half_words + 1)
}

// ROOT, of a call that names two roots: whether either number is that of none. One test does for both, since
// the smaller is that of a root if the larger is.
pub fn no_root(root_count: usize, one: usize, other: usize) -> bool
    ensures { result ≡ no_roots root_count (one ∷ other ∷ []) }
{
    root_count <= one.max(other)
}
