// A lent buffer and the place in it that the next byte goes to. Bytes are put as far as it goes, and the place is counted on in any case.
ghost use Rattle.std.specs.Prelude.{◌≡◌, [], ◌∷◌, get_or};
ghost use Rattle.scan.specs.Names.{name_bytes};
ghost use Rattle.decimal.specs.Decimal.{decimal};
ghost use Rattle.text.specs.Text.{spaced_words};
ghost use Rattle.text.specs.way.Place.{next};
ghost use Rattle.text.specs.way.Page.{Put};

use decimal::digits_of;
use scan::NAME_PLACES;
use shape::name_length;

// No text has more bytes.
const TEXT_END: usize = 65536;

// The place behind a place.
fn next_place(at: usize) -> usize
    ensures { result ≡ next at }
{
    if at < TEXT_END { at + 1 } else { at }
}

// The buffer, and the place. What puts onto a page is inlined: else a text takes 11 to 15 % more instructions, for its place is in memory.
#[derive(Drop)]
pub struct Page<'a> {
    pub buf: &'a mut [u8],
    pub at: usize,
}

impl<'a> Page<'a> {
    // Bytes. The place stays in a variable meanwhile: written to the page at each byte, it slows a text down.
    #[inline(always)]
    pub fn put_bytes(&mut self, bytes: &[u8])
        ensures { Put self.old bytes.now self.new }
    {
        let buf = &mut *self.buf;
        let mut at = self.at;
        for b in bytes {
            if at < buf.len() {
                buf[at] = *b;
            }
            at = next_place(at);
        }
        self.at = at;
    }

    // One byte.
    #[inline(always)]
    pub fn put_byte(&mut self, b: u8)
        ensures { Put self.old (b ∷ []) self.new }
    {
        self.put_bytes(&[b]);
    }

    // A word, with a space before it.
    #[inline(always)]
    pub fn put_word(&mut self, word: &[u8])
        ensures { Put self.old (spaced_words (word.now ∷ [])) self.new }
    {
        self.put_byte(0x20);
        self.put_bytes(word);
    }

    // A name.
    #[inline(always)]
    pub fn put_name(&mut self, name: [u8; NAME_PLACES])
        ensures { Put self.old (spaced_words (name_bytes name ∷ [])) self.new }
    {
        let len = name_length(name);
        self.put_word(&name[0..len]);
    }

    // Name k of a list of names; none where the list is shorter.
    #[inline(always)]
    pub fn put_name_at(&mut self, names: &[[u8; NAME_PLACES]], k: usize)
        ensures { Put self.old (spaced_words (name_bytes (get_or names.now k []) ∷ [])) self.new }
    {
        if k < names.len() {
            let name = names[k];
            self.put_name(name);
        } else {
            self.put_byte(0x20);
        }
    }

    // A number.
    #[inline(always)]
    pub fn put_number(&mut self, n: u8)
        ensures { Put self.old (spaced_words (decimal n ∷ [])) self.new }
    {
        let digits = digits_of(n as usize);
        self.put_word(digits.as_slice());
    }
}
