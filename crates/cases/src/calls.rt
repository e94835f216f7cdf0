// Session calls, a word each; roots, fields and numbers in the order of the definitions.
use model::{Call, Kind};

pub fn allocate(kind: Kind, fields: usize, to: usize) -> Call {
    Call::Allocate { kind, fields, to }
}

pub fn set_integer(to: usize, value: i64) -> Call {
    Call::SetInteger { to, value }
}

pub fn set_null(to: usize) -> Call {
    Call::SetNull { to }
}

pub fn set_code(to: usize, word: u32) -> Call {
    Call::SetCode { to, word }
}

pub fn copy(from: usize, to: usize) -> Call {
    Call::Copy { from, to }
}

pub fn load(object: usize, field: usize, to: usize) -> Call {
    Call::Load { object, field, to }
}

pub fn store(object: usize, field: usize, from: usize) -> Call {
    Call::Store {
        object,
        field,
        from,
    }
}

pub fn raw_read(object: usize, field: usize) -> Call {
    Call::RawRead { object, field }
}

pub fn raw_write(object: usize, field: usize, number: u32) -> Call {
    Call::RawWrite {
        object,
        field,
        number,
    }
}

pub fn same(one: usize, other: usize) -> Call {
    Call::Same { one, other }
}

pub fn inspect(root: usize) -> Call {
    Call::Inspect { root }
}
