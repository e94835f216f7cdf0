// Unsound::of_words: word 0, the idle half, the free words and the tiling. S = 5.
ghost use Rattle.std.specs.Prelude.{◌<◌};

use super::judge::{self, two_objects, two_objects_b};
use std::io;

// A word is changed, and that alone.
fn unsound_a(rt: &impl Print, title: &str, index: usize, word: u32) -> io::Result<()>
    requires { index < 11 }
{
    let mut state = two_objects([4]);
    state.heap[index] = word;
    judge::unsound(rt, title, state)
}

fn unsound_b(rt: &impl Print, title: &str, index: usize, word: u32) -> io::Result<()>
    requires { index < 11 }
{
    let mut state = two_objects_b([24]);
    state.heap[index] = word;
    judge::unsound(rt, title, state)
}

pub fn cases(rt: &impl Print) -> io::Result<()> {
    judge::sound(rt, "sound, half A", two_objects([4]))?;
    judge::sound(rt, "sound, half B", two_objects_b([24]))?;
    unsound_a(rt, "sound, word 0", 0, 1)?;
    unsound_b(rt, "sound, word 0 in half B", 0, 1)?;
    unsound_a(rt, "sound, first idle word", 6, 1)?;
    unsound_a(rt, "sound, last idle word", 10, 1)?;
    unsound_b(rt, "sound, first idle word in half B", 1, 1)?;
    unsound_b(rt, "sound, last idle word in half B", 5, 1)?;
    unsound_a(rt, "sound, free word", 5, 1)?;
    unsound_b(rt, "sound, free word in half B", 10, 1)?;
    unsound_a(rt, "sound, bit 0 of a header", 3, 3)?;
    unsound_b(rt, "sound, bit 0 of a header in half B", 8, 3)?;
    unsound_a(rt, "sound, tiling past the free index", 3, 4)?;
    unsound_b(rt, "sound, tiling past the free index in half B", 8, 4)?;
    unsound_a(rt, "sound, largest count", 3, 0xfffffffe)
}
