// What a host sees of the object that a root names: inspect, also in numbers, and the place of a window. No
// call has a `requires`: each answers for every heap, roots and record that it is lent, and its promise is
// one equation to its definition in `model`.
#![tactic(auto)]

pub mod contents;
pub mod place;

pub use contents::{inspect, tell};
