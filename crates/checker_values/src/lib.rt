// Words in a row held against the marks: one verdict on all of them. Few words are judged straight, and many
// odd words or nulls in a row without a look at the marks.
#![tactic(auto)]

ghost use Rattle.std.specs.Prelude.{◌≡◌, ◌≤◌, if◌then◌else◌, eqb, length, take};
ghost use Rattle.model.specs.Soundness.{all};
ghost use Rattle.model.specs.Values.{is_odd};
ghost use Rattle.checker_marks.specs.Asked.{is_value};
ghost use Rattle.checker_marks.specs.Verdicts.{holds};
ghost use Rattle.checker_values.specs.Plain.{is_plain};

use checker_marks::{Marks, Verdict};

fn judge_four(row: &[u32], marks: Marks) -> Verdict
    requires { length row.now ≡ 4 }
    ensures { holds result ≡ all (is_value marks.entry) row.now }
{
    let one = marks.judge(row[0]);
    let two = marks.judge(row[1]);
    let three = marks.judge(row[2]);
    let four = marks.judge(row[3]);
    one & two & three & four
}

// Four words at most.
pub fn judge_few(row: &[u32], marks: Marks) -> Verdict
    requires { length row.now ≤ 4 }
    ensures { holds result ≡ all (is_value marks.entry) row.now }
{
    let n = row.len();
    if n == 0 {
        return Verdict::yes();
    }
    let one = marks.judge(row[0]);
    if n == 1 {
        return one;
    }
    let two = one & marks.judge(row[1]);
    if n == 2 {
        return two;
    }
    let three = two & marks.judge(row[2]);
    if n == 3 {
        return three;
    }
    three & marks.judge(row[3])
}

// The first n of four words. Those past n are let through, so that no jump waits for n.
fn judge_masked(words: &[u32], n: usize, marks: Marks) -> Verdict
    requires { (4 ≤ length words.now) × (n ≤ 4) }
    ensures { holds result ≡ all (is_value marks.entry) (take n words.now) }
{
    let past = 15 << n as u32;
    let one = marks.judge(words[0]) | Verdict::of_lowest(past);
    let two = marks.judge(words[1]) | Verdict::of_lowest(past / 2);
    let three = marks.judge(words[2]) | Verdict::of_lowest(past / 4);
    let four = marks.judge(words[3]) | Verdict::of_lowest(past / 8);
    one & two & three & four
}

// The first n words, four at most: the first of four, where there are four.
pub fn judge_small(words: &[u32], n: usize, marks: Marks) -> Verdict
    requires { (n ≤ length words.now) × (n ≤ 4) }
    ensures { holds result ≡ all (is_value marks.entry) (take n words.now) }
{
    if 4 <= words.len() {
        return judge_masked(words, n, marks);
    }
    judge_few(&words[..n], marks)
}

// Four at a time, and what is left over one by one.
fn judge_fours(row: &[u32], marks: Marks) -> Verdict
    ensures { holds result ≡ all (is_value marks.entry) row.now }
{
    let mut verdict = Verdict::yes();
    let mut left = row;
    while 4 <= left.len() {
        let (four, rest) = left.split_at(4);
        verdict = verdict & judge_four(four, marks);
        left = rest;
    }
    verdict & judge_few(left, marks)
}

// The bits of an even word, and none of an odd one.
fn bits_if_even(word: u32) -> u32
    ensures { result ≡ (if is_odd word then 0 else word) }
{
    if word % 2 == 1 { 0 } else { word }
}

// The bits that any even word has: none exactly if all are odd or 0. There is no way out of the loop, so that
// it takes several words at a time.
fn even_bits(row: &[u32]) -> u32
    ensures { eqb result 0 ≡ all is_plain row.now }
{
    row.iter().fold(0, |bits, word| bits | bits_if_even(*word))
}

// More than eight words: 64 of them that are all odd or 0 need no look at the marks.
fn judge_many(row: &[u32], marks: Marks) -> Verdict
    ensures { holds result ≡ all (is_value marks.entry) row.now }
{
    let mut verdict = Verdict::yes();
    let mut left = row;
    while let Some((first, rest)) = left.split_first_chunk::<64>() {
        if even_bits(first) != 0 {
            verdict = verdict & judge_fours(first, marks);
        }
        left = rest;
    }
    verdict & judge_fours(left, marks)
}

// Any number of words. Five to eight are the first four and the last four.
pub fn judge_words(row: &[u32], marks: Marks) -> Verdict
    ensures { holds result ≡ all (is_value marks.entry) row.now }
{
    let n = row.len();
    if n <= 4 {
        return judge_few(row, marks);
    }
    if n <= 8 {
        let first = judge_four(&row[..4], marks);
        return first & judge_four(&row[n - 4..], marks);
    }
    judge_many(row, marks)
}
