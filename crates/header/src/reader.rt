// A file and the place in it that has been reached. The loader takes each field through one.
ghost use Rattle.std.specs.Prelude.{◌≡◌, drop};
ghost use Rattle.header.specs.Header.{header_of, front_of};
ghost use Rattle.header.specs.way.Header.{header_told, front_told};

use super::header::{Field, header_at};
use super::numbers::{Fault, Refusal};

#[derive(Clone, Copy)]
pub struct Reader<'a> {
    pub file: &'a [u8],
    pub at: usize,
}

// The field at the front of what is left: its tag, the length of its body, and the offset of its first byte.
#[derive(Clone, Copy, Debug, PartialEq, Eq)]
pub struct FrontField {
    pub tag: u8,
    pub len: usize,
    pub at: usize,
}

impl<'a> Reader<'a> {
    fn new(file: &'a [u8], at: usize) -> Reader<'a>
        ensures { (result.file ≡ file.entry) × (result.at ≡ at) }
    {
        Reader { file, at }
    }

    fn front(self, due: u8, m: usize) -> Result<Field, Fault>
        ensures { header_told result ≡ header_of (drop self.entry.at self.entry.file.now) due m }
    {
        header_at(self.file, self.at, due, m)
    }

    // Where the reader stands.
    fn offset(self) -> usize
        ensures { result ≡ self.entry.at }
    {
        self.at
    }
}

// The field at `at`, where the tag `due` is due and m constraints have been loaded.
pub fn front_at(file: &[u8], at: usize, due: u8, m: usize) -> Result<FrontField, Refusal>
    ensures { front_told result ≡ front_of file.now at due m }
{
    let reader = Reader::new(file, at);
    let offset = reader.offset();
    match reader.front(due, m) {
        Ok(Field { tag, len }) => Ok(FrontField {
            tag,
            len,
            at: offset,
        }),
        Err(fault) => Err(Refusal { fault, offset }),
    }
}
