// What the library's calls speak of: halves, indexes, addresses, the heap's record, objects' kinds, refusals,
// answers and calls, in the forms that document 01 names, and the steps between the two units.
#![tactic(auto)]

ghost use Rattle.std.specs.Prelude.{◌≡◌, ◌≤◌};
ghost use Rattle.model.specs.Limits.{max_words};
ghost use Rattle.model.specs.Words.{address_of, index_of};

mod shown;

// Half A is words 1 to S, half B words S + 1 to 2S.
#[derive(Clone, Copy, PartialEq, Eq)]
pub enum Half {
    A,
    B,
}

// The index of a heap word. Word 0 is reserved.
#[derive(Clone, Copy)]
pub struct Index(pub usize);

// The address of a heap word in bytes, as roots and fields hold it.
#[derive(Clone, Copy)]
pub struct Address(pub u32);

// The heap's record: the current half, and the index of the next free word.
#[derive(Clone, Copy)]
pub struct Record {
    pub half: Half,
    pub free: Index,
}

// Fields of a traced object are values; those of an untraced one are raw words, never followed.
#[derive(Clone, Copy, PartialEq, Eq)]
pub enum Kind {
    Traced,
    Untraced,
}

// Why a call refuses, by document 01's and 02's numbers, which are names: the order in which refusals are
// given is `rank` of the definitions.
#[derive(Clone, Copy, PartialEq, Eq)]
pub enum Refusal {
    // The heap's length, the number of roots or the free index is outside its range.
    Shape = 1,
    // A root number is not below the number of roots.
    Root = 2,
    // More fields than a header can hold.
    Count = 3,
    // An integer that a word cannot hold, or a word to be set as a code word that is none.
    Range = 4,
    // The root names no object.
    Object = 5,
    // A traced call on an untraced object, or the reverse.
    Kind = 6,
    // The object has no such field.
    Field = 7,
    // A collection is called for and the heap is not sound.
    Damaged = 8,
    // The words needed do not fit after the collection either.
    Room = 9,
    // Write: null, a code word or an untraced object, which have no text. Read: the bytes are no text, or an
    // integer is out of range.
    Value = 10,
    // An object that would be the 65th nested.
    Deep = 11,
    // The text has more bytes than are lent.
    Text = 12,
}

// What a collection counts.
#[derive(Clone, Copy)]
pub struct Counts {
    // L: the words of the reachable objects.
    pub live: u32,
    // The reachable objects.
    pub objects: u32,
    // The object addresses in roots and in fields of reachable traced objects, each as often as it stands
    // there.
    pub addresses: u32,
}

// What a call answers that does not refuse.
#[derive(Clone, Copy)]
pub enum Answer {
    Done,
    // Collect.
    Live(Counts),
    Sound,
    Unsound,
    // Same.
    Yes,
    No,
    // Inspect.
    Null,
    Integer(i32),
    Object(Kind, u32),
    Code(u32),
    // A raw word.
    Number(u32),
    // Write: the bytes of the text.
    Written(usize),
}

// What a by-value call returns that may leave another record: its answer or why it refuses, and the record to
// hand to the next call.
#[derive(Clone, Copy)]
pub struct Answered {
    pub answer: Result<Answer, Refusal>,
    pub record: Record,
}

impl Answered {
    // An answer with the record that goes with it.
    pub fn say(answer: Answer, record: Record) -> Answered
        ensures { result ≡ record { answer = Ok answer; «record» = «record» } }
    {
        Answered {
            answer: Ok(answer),
            record,
        }
    }

    // A refusal with the record that goes with it.
    pub fn refuse(refusal: Refusal, record: Record) -> Answered
        ensures { result ≡ record { answer = Err refusal; «record» = «record» } }
    {
        Answered {
            answer: Err(refusal),
            record,
        }
    }
}

// An answer in document 01's numbers.
#[derive(Clone, Copy, Default)]
pub struct Told {
    // The refusal's number, 0 for none.
    pub refusal: u32,
    // What the root of an inspect holds: 0 null, 1 an integer, 2 a traced object, 3 an untraced one, 4 a code
    // word.
    pub holds: u32,
    // The integer that it holds, else 0.
    pub integer: i32,
    // Live words, a field count, a code word, a raw word, or 1 for sound and for yes.
    pub value: u32,
    // The bytes of a text that was written, else 0. There may be more of them than 32 bits hold.
    pub length: usize,
    // Of a collection: the live objects, and the object addresses met; else 0.
    pub objects: u32,
    pub addresses: u32,
}

// A session call. Roots are named by number.
#[derive(Clone, Copy)]
pub enum Call {
    Collect,
    Check,
    Allocate {
        kind: Kind,
        fields: usize,
        to: usize,
    },
    SetInteger {
        to: usize,
        value: i64,
    },
    SetNull {
        to: usize,
    },
    SetCode {
        to: usize,
        word: u32,
    },
    Copy {
        from: usize,
        to: usize,
    },
    Load {
        object: usize,
        field: usize,
        to: usize,
    },
    Store {
        object: usize,
        field: usize,
        from: usize,
    },
    RawRead {
        object: usize,
        field: usize,
    },
    RawWrite {
        object: usize,
        field: usize,
        number: u32,
    },
    Same {
        one: usize,
        other: usize,
    },
    Inspect {
        root: usize,
    },
    Write {
        root: usize,
    },
    Read {
        to: usize,
    },
}

// Where the object of a window stands: the index of its header, and its field count.
#[derive(Clone, Copy)]
pub struct Place {
    pub header: Index,
    pub count: u32,
}

// The address of a word of a heap. (No `From`: an index past all heaps has no address.)
pub fn address_of(index: Index) -> Address
    requires { index.0 ≤ max_words }
    ensures { result.0 ≡ address_of index.0 }
{
    Address((index.0 * 4) as u32)
}

// The index of the word that an address lies in.
pub fn index_of(address: Address) -> Index
    ensures { result.0 ≡ index_of address.0 }
{
    Index((address.0 / 4) as usize)
}
