// The fields of the used part's objects held against the marks, object after object. The headers are marked.
//
// Walks over objects are `while` loops: how far the next header is, this one says, so that no range is known
// before; and where the step is the same from object to object, the place past `end` is the answer.
#![tactic(auto)]

ghost use Rattle.std.specs.Prelude.{◌≡◌, true, ◌≤◌, ◌<◌, length};
ghost use Rattle.model.specs.Headers.{tuple};
ghost use Rattle.model.specs.Objects.{is_traced};
ghost use Rattle.model.specs.Words.{at};

use checker_marks::{MANY_RUNS, MIXED_STRETCH, Marks, STRETCH, Verdict, stretch_end};
use checker_values::{judge_few, judge_small, judge_words};
use words::tuple::Tuple;

// The words of a heap, and the marks of its headers below the free index.
#[derive(Clone, Copy)]
pub struct Objects<'a> {
    pub words: &'a [u32],
    pub marks: Marks<'a>,
    pub ghost used: { marks.free ≤ length words.now },
}

// Where a walk stopped; the verdict on the fields that it passed; and whether headers changed often on the
// way, which only chooses the way from there on.
#[derive(Clone, Copy)]
pub struct Walk {
    pub at: usize,
    pub verdict: Verdict,
    pub mixed: bool,
}

// The header of a traced object of two fields.
const PAIR: u32 = 4;

impl Objects<'_> {
    ghost use Rattle.checker_fields.specs.Walks.{AreTiled, Passes, fields_are_values, are_values};
    ghost use Rattle.checker_marks.specs.Verdicts.{holds};

    // Pairs one behind the other, up to `end`: lists and trees are made of them, and a loop of their own
    // judges them faster than the next one (DECISIONS, pairs).
    fn judge_pairs(self, from: usize, end: usize) -> Walk
        requires { AreTiled self from × (from < end) × (end ≤ self.marks.free)
            × (at self.words.now from ≡ 4) }
        ensures { Passes self.entry from result.at (holds result.verdict) }
    {
        let mut at = from;
        let mut verdict = Verdict::yes();
        while at < end {
            if self.words[at] != PAIR {
                return Walk {
                    at,
                    verdict,
                    mixed: false,
                };
            }
            let one = self.marks.judge(self.words[at + 1]);
            let two = self.marks.judge(self.words[at + 2]);
            verdict = verdict & (one & two);
            at += 3;
        }
        Walk {
            at,
            verdict,
            mixed: false,
        }
    }

    // The same of any traced objects with one header, of four fields at most.
    fn judge_alike(self, from: usize, end: usize, header: u32) -> Walk
        requires { AreTiled self from × (from < end) × (end ≤ self.marks.free)
            × (at self.words.now from ≡ header) × (is_traced (tuple.kind_of header) ≡ true)
            × (tuple.count_of header ≤ 4) }
        ensures { Passes self.entry from result.at (holds result.verdict) }
    {
        let n = Tuple::count_of(header);
        let mut at = from;
        let mut verdict = Verdict::yes();
        while at < end {
            if self.words[at] != header {
                return Walk {
                    at,
                    verdict,
                    mixed: false,
                };
            }
            let next = at + 1 + n;
            verdict = verdict & judge_few(&self.words[at + 1..next], self.marks);
            at = next;
        }
        Walk {
            at,
            verdict,
            mixed: false,
        }
    }

    // A run of small traced objects with one header, or a single object.
    fn judge_run(self, from: usize, end: usize) -> Walk
        requires { AreTiled self from × (from < end) × (end ≤ self.marks.free) }
        ensures { Passes self.entry from result.at (holds result.verdict) }
    {
        let header = self.words[from];
        let n = Tuple::count_of(header);
        let at = from + 1 + n;
        if !Tuple::is_traced(header) {
            return Walk {
                at,
                verdict: Verdict::yes(),
                mixed: false,
            };
        }
        if header == PAIR {
            return self.judge_pairs(from, end);
        }
        if n <= 4 {
            return self.judge_alike(from, end, header);
        }
        let verdict = judge_words(&self.words[from + 1..at], self.marks);
        Walk {
            at,
            verdict,
            mixed: false,
        }
    }

    // The objects that begin before `end`, by runs.
    fn judge_by_runs(self, from: usize, end: usize) -> Walk
        requires { AreTiled self from × (from < end) × (end ≤ self.marks.free) }
        ensures { Passes self.entry from result.at (holds result.verdict) }
    {
        let mut at = from;
        let mut verdict = Verdict::yes();
        let mut runs: usize = 0;
        while at < end {
            let walk = self.judge_run(at, end);
            verdict = verdict & walk.verdict;
            at = walk.at;
            runs += 1;
        }
        Walk {
            at,
            verdict,
            mixed: MANY_RUNS < runs,
        }
    }

    // One object. Where sizes change often, no jump waits for that of a small one.
    fn judge_object(self, from: usize) -> Verdict
        requires { AreTiled self from × (from < self.marks.free) }
        ensures { holds result ≡ fields_are_values self.entry from }
    {
        let header = self.words[from];
        let n = Tuple::count_of(header);
        let fields = if Tuple::is_traced(header) { n } else { 0 };
        let first = from + 1;
        if n <= 4 {
            return judge_small(&self.words[first..], fields, self.marks);
        }
        if fields == 0 {
            return Verdict::yes();
        }
        judge_words(&self.words[first..first + fields], self.marks)
    }

    // The objects that begin before `end`, one by one.
    fn judge_each(self, from: usize, end: usize) -> Walk
        requires { AreTiled self from × (from < end) × (end ≤ self.marks.free) }
        ensures { Passes self.entry from result.at (holds result.verdict) }
    {
        let mut at = from;
        let mut verdict = Verdict::yes();
        while at < end {
            verdict = verdict & self.judge_object(at);
            at += Tuple::count_of(self.words[at]) + 1;
        }
        Walk {
            at,
            verdict,
            mixed: false,
        }
    }

    fn judge_stretch(self, from: usize, mixed: bool) -> Walk
        requires { AreTiled self from × (from < self.marks.free) }
        ensures { Passes self.entry from result.at (holds result.verdict) }
    {
        let free = self.marks.free;
        if mixed {
            return self.judge_each(from, stretch_end(from, free, MIXED_STRETCH));
        }
        self.judge_by_runs(from, stretch_end(from, free, STRETCH))
    }

    // Whether the fields of each traced object from an index to the free one are values.
    pub fn are_all_fields_values(self, from: usize) -> bool
        requires { AreTiled self from }
        ensures { result ≡ are_values self.entry from }
    {
        let mut at = from;
        let mut verdict = Verdict::yes();
        let mut mixed = false;
        while at < self.marks.free {
            let walk = self.judge_stretch(at, mixed);
            verdict = verdict & walk.verdict;
            at = walk.at;
            mixed = walk.mixed;
        }
        verdict.holds()
    }
}
