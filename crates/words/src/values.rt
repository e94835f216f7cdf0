// What a word of a root or of a traced field holds, as far as the word alone tells: odd words are integers',
// 0 is null, and the other even ones are addresses below the floor and code words from there up.
ghost use Rattle.std.specs.Prelude.{◌≡◌};
ghost use Rattle.model.specs.Values.{is_address, is_code};

// Every even word from here up is a code word.
pub const CODE_FLOOR: u32 = 16777216;

// The largest integer that a word can hold; the smallest is -1 less it.
pub const MAX_INTEGER: u32 = 1073741823;

// From here on an odd word is a negative integer's.
pub const NEGATIVE: u32 = 2147483648;

// The word of -1, which is the largest.
pub const LAST_WORD: u32 = 4294967295;

// Even, not 0, below the floor: an object's address, if the heap is sound. In this order the compiler makes
// one test of the first two, by a mask, so that a collection tests a word as often as if there were no floor.
pub fn is_address(word: u32) -> bool
    ensures { result ≡ is_address word }
{
    if word % 2 == 1 {
        return false;
    }
    if CODE_FLOOR <= word {
        return false;
    }
    word != 0
}

pub fn is_code(word: u32) -> bool
    ensures { result ≡ is_code word }
{
    if word % 2 == 1 {
        return false;
    }
    CODE_FLOOR <= word
}
