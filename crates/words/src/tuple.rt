// The tuple layout: every header is written and read here and nowhere else.
ghost use Rattle.std.specs.Prelude.{◌≡◌, ◌<◌, ◌≤◌, false};
ghost use Rattle.model.specs.Limits.{max_words, max_fields};
ghost use Rattle.model.specs.Headers as Layouts;
ghost use Rattle.model.specs.Objects.{address, index, is_traced};

use model::{Address, Index, Kind};

// The layout of 001: bit 31 untraced, bits 1 to 30 the field count, bit 0 clear; forwarded, the new address
// plus 1.
#[derive(Clone, Copy)]
pub struct Tuple;

impl Tuple {
    // A header from here on is an untraced object's.
    pub const UNTRACED: u32 = 2147483648;
    // What bits 1 to 30 can hold, and one more.
    pub const COUNTS: u32 = 1073741824;

    // The address of the object whose header stands at an index.
    pub fn address_of(header: Index) -> Address
        requires { header.0 ≤ max_words }
        ensures { result.0 ≡ address Layouts.tuple header.0 }
    {
        model::address_of(header)
    }

    pub fn index_of(object: Address) -> Index
        ensures { result.0 ≡ index Layouts.tuple object.0 }
    {
        model::index_of(object)
    }

    pub fn is_header(word: u32) -> bool
        ensures { result ≡ (Layouts.tuple).is_header word }
    {
        word % 2 == 0
    }

    pub fn is_traced(header: u32) -> bool
        ensures { result ≡ is_traced ((Layouts.tuple).kind_of header) }
    {
        header < Tuple::UNTRACED
    }

    pub fn kind_of(header: u32) -> Kind
        ensures { result ≡ (Layouts.tuple).kind_of header }
    {
        if header < Tuple::UNTRACED {
            return Kind::Traced;
        }
        Kind::Untraced
    }

    pub fn count_of(header: u32) -> usize
        ensures is { result ≡ (Layouts.tuple).count_of header }
        ensures bounded { result ≤ max_fields }
    {
        (header / 2 % Tuple::COUNTS) as usize
    }

    pub fn header(kind: Kind, fields: usize) -> u32
        requires { fields ≤ max_fields }
        ensures { result ≡ (Layouts.tuple).header kind fields }
    {
        let count = fields as u32;
        match kind {
            Kind::Traced => 2 * count,
            Kind::Untraced => Tuple::UNTRACED + 2 * count,
        }
    }

    // What the header of a copied object holds, of the copy's address.
    pub fn mark(copy: Address) -> u32
        requires { copy.0 < 4294967295 }
        ensures { result ≡ (Layouts.tuple).mark copy.0 }
    {
        copy.0 + 1
    }

    // And the address again.
    pub fn unmark(mark: u32) -> Address
        requires { (Layouts.tuple).is_header mark ≡ false }
        ensures { result.0 ≡ (Layouts.tuple).unmark mark }
    {
        Address(mark - 1)
    }
}
