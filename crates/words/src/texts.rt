// The bytes of a text, and how deep its tuples nest: what the reader takes the writer writes.

// Before the digits of a negative integer.
pub const MINUS: u8 = b'~';

pub const ZERO: u8 = b'0';

// Of a tuple of no field, or of two or more.
pub const OPENER: u8 = b'(';

pub const CLOSER: u8 = b')';

pub const COMMA: u8 = b',';

// Of a tuple of one field: `{1=` and `}`.
pub const ONE_OPENER: u8 = b'{';

pub const ONE: u8 = b'1';

pub const EQUALS: u8 = b'=';

pub const ONE_CLOSER: u8 = b'}';

// Tuples nest so deep.
pub const MAX_DEPTH: usize = 64;
