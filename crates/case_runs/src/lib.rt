// What the cases of `cases` and `text_cases` go through: their calls through `step`, their lines, and the
// heaps that several of them start from.
#![tactic(auto)]

pub mod start;
pub mod state;
