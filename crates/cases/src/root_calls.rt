// Every call that names a root: the root `r`, and the root 0 where it names a second.
use super::calls;
use model::{Call, Kind};

pub fn all(r: usize) -> [Call; 15] {
    [
        calls::allocate(Kind::Traced, 0, r),
        calls::set_integer(r, 0),
        calls::set_null(r),
        calls::set_code(r, 16777216),
        calls::copy(r, 0),
        calls::copy(0, r),
        calls::load(r, 0, 0),
        calls::load(0, 0, r),
        calls::store(r, 0, 0),
        calls::store(0, 0, r),
        calls::raw_read(r, 0),
        calls::raw_write(r, 0, 0),
        calls::same(r, 0),
        calls::same(0, r),
        calls::inspect(r),
    ]
}
