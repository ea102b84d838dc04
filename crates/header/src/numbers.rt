// Why a set file is refused, by document 01's numbers and those of the change requests, and the tags of fields.
ghost use Rattle.std.specs.Prelude.{◌≡◌};
ghost use Rattle.header.specs.Fault.{number};

#[derive(Clone, Copy, Debug, PartialEq, Eq)]
pub enum Fault {
    PastEnd = 1,
    TagNotDue = 2,
    ManyConstraints = 3,
    BadLength = 4,
    BadCounts = 5,
    BadKind = 6,
    BadNameByte = 7,
    NameUsed = 8,
    BadLiteral = 9,
    NotRising = 10,
    NoOutput = 11,
    BytesFollow = 12,
    BadRest = 54,
    NoHighRead = 59,
}

impl Fault {
    // The refusal's number.
    pub fn number(self) -> u8
        ensures { result ≡ number self }
    {
        self as u8
    }
}

// A fault, and the offset of the first byte of the field that has it.
#[derive(Clone, Copy, Debug, PartialEq, Eq)]
pub struct Refusal {
    pub fault: Fault,
    pub offset: usize,
}

// No enum of tags: a field's tag may be any byte, and the table and the tests go by the byte.
pub const TAG_COUNTS: u8 = 0x01;

pub const TAG_READ: u8 = 0x02;

pub const TAG_OUTPUT: u8 = 0x03;

pub const TAG_CONSTRAINT: u8 = 0x04;

pub const TAG_END: u8 = 0x05;

pub const TAG_REST: u8 = 0x06;

pub const TAG_WIDE: u8 = 0x07;
