// The marks once all are made: what a word is held against.
ghost use Rattle.std.specs.Prelude.{◌≡◌};
ghost use Rattle.checker_marks.specs.Marks.{Ready};

use crate::verdict::Verdict;
use words::values::CODE_FLOOR;

// The words of the idle half from the first mark's on, and the free index, which has no mark: words below it
// can be asked for.
#[derive(Clone, Copy)]
pub struct Marks<'a> {
    pub bits: &'a [u32],
    pub free: usize,
    pub ghost ready: { Ready bits.now free },
}

// The last word below the floor of code words. It is odd, so that all words from here up are values.
const BELOW_FLOOR: u32 = CODE_FLOOR - 1;

impl Marks<'_> {
    ghost use Rattle.checker_marks.specs.Asked.{is_value};
    ghost use Rattle.checker_marks.specs.Verdicts.{holds};

    // The verdict on a word: whether it is odd, 0, a code word, or the address of a marked word. No jump is
    // in it. A word that is a value by its size alone is taken for the odd one below the floor. Turned right
    // by two bits, a multiple of 4 is an index and any other even word is past all of them; what is no index
    // below the free one is looked up there, where no mark is. Null has the mark of word 0.
    pub fn judge(self, word: u32) -> Verdict
        ensures { holds result ≡ is_value self.entry word }
    {
        let capped = if word < BELOW_FLOOR {
            word
        } else {
            BELOW_FLOOR
        };
        let turned = capped / 4 + capped % 4 * 1073741824;
        let last = self.free as u32;
        let i = if turned < last { turned } else { last };
        Verdict::of_lowest((self.bits[(i / 32) as usize] >> (i % 32)) | capped)
    }
}
