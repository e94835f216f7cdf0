// The library for C: every call in slices and numbers. No call has a `requires`; each answers for all numbers
// that it is given, and its promise is one equation to the call's definition in `model`, by the numbers of
// `crossing`.
#![tactic(auto)]

ghost use Rattle.std.specs.Prelude.{◌≡◌};
ghost use Rattle.crossing.specs.Numbers as Numbers;

pub mod fields;
pub mod heap;
pub mod roots;
pub mod texts;
pub mod window;

// The version of this library, as the header's number.
#[unsafe(no_mangle)]
pub extern "C" fn phachunoi_version() -> u32
    ensures { result ≡ Numbers.version }
{
    6000
}
