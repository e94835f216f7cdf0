// Leaves that every crate above shares: the limits, halves, SHAPE and ROOT; the bytes of a text; the tuple
// layout; what a word holds.
#![tactic(auto)]

pub mod admission;
pub mod shape;
pub mod texts;
pub mod tuple;
pub mod values;
