// The bytes of a line, as they are made.
ghost use Rattle.std.specs.Prelude.{◌≡◌, ℕ, List, [], ◌∷◌, ◌++◌, ◌+◌, ◌≤◌, ◌<◌, length, take};
ghost use Rattle.line.specs.Line.{spaced};

use decimal::digits_of;
use std::marker::Model;

// A word of at most 8 bytes, three numbers of at most 20 digits with a space before each, and the line's end fit.
const LONGEST_LINE: usize = 80;

#[derive(Drop)]
pub struct Draft {
    bytes: [u8; LONGEST_LINE],
    len: usize,
}

// The bytes that are made: the first `len`.
impl Model for Draft {
    ghost Value = { List ℕ };

    ghost view = { λ d. take d.len d.bytes };

    ghost invariant = { λ d. d.len ≤ 80 };
}

impl Draft {
    pub fn new() -> Self
        ensures { result ≡ [] }
    {
        Draft {
            bytes: [0; LONGEST_LINE],
            len: 0,
        }
    }

    // One byte more.
    pub fn push(&mut self, byte: u8)
        requires { length self.old < 80 }
        ensures { self.new ≡ self.old ++ (byte ∷ []) }
    {
        self.bytes[self.len] = byte;
        self.len += 1;
    }

    // Bytes more.
    pub fn push_all(&mut self, bytes: &[u8])
        requires { length self.old + length bytes.now ≤ 80 }
        ensures { self.new ≡ self.old ++ bytes.now }
    {
        for b in bytes {
            self.push(*b);
        }
    }

    // A space and a number more.
    #[tactic(auto, unfolding(crate::specs::Line::spaced))]
    pub fn push_number(&mut self, n: usize)
        requires { length self.old + 21 ≤ 80 }
        ensures added { self.new ≡ self.old ++ spaced n }
        ensures at_most { length self.new ≤ length self.old + 21 }
    {
        let digits = digits_of(n);
        self.push(0x20);
        self.push_all(digits.as_slice());
    }

    // All bytes.
    pub fn as_slice(&self) -> &[u8]
        ensures { result.now ≡ self.now }
    {
        &self.bytes[..self.len]
    }
}
