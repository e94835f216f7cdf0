// The calls that look at no heap word: fresh, and those on roots' words as they are. As every call, each is
// lent heap, roots and record apart, as C and README name them, and by `&mut` what it writes alone. No call
// has a `requires`: each answers for all that it is lent, and its promise is one equation to the call's
// definition in `model`.
#![tactic(auto)]

pub mod beginning;
pub mod code;
pub mod integer;
pub mod roots;

pub use beginning::fresh;
pub use code::set_code;
pub use integer::set_integer;
pub use roots::{copy, same, set_null};
