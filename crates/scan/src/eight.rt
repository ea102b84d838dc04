// The safety of eight vectors at once, which differ in outputs 0 to 2 alone: they are the bits of a byte. Of each entry the outputs from 3 on are tried once for the
// eight, and the byte of its literals of outputs 0 to 2 says at which of the eight it is true then.
ghost use Rattle.std.specs.Prelude.{◌≡◌};
ghost use Rattle.scan.specs.way.Eight.{low_true, low_held, eight_of, safe_byte};

use super::entries::{Entries, flip_if};
use super::set::MOST_CONSTRAINTS;

// Of each entry: what it asks of the outputs from 3 on, and the byte of its literals of outputs 0 to 2. The places beyond the entries are zero.
#[derive(Clone, Copy)]
pub struct Eight {
    pub high: Entries,
    pub low: [u16; MOST_CONSTRAINTS],
}

// Of eight vectors, bit j being the one whose outputs 0 to 2 are j, those at which the literals of these outputs are true.
fn low_true(plain: u16, named: u16) -> u16
    ensures { result ≡ low_true plain named }
{
    let p = plain % 8;
    let q = named % 8;
    flip_if(0, p, q, 1)
        | flip_if(1, p, q, 2)
        | flip_if(2, p, q, 4)
        | flip_if(3, p, q, 8)
        | flip_if(4, p, q, 16)
        | flip_if(5, p, q, 32)
        | flip_if(6, p, q, 64)
        | flip_if(7, p, q, 128)
}

// Those at which each held one of outputs 0 to 2 is as it is held.
pub fn low_held(f0: u16, f1: u16) -> u16
    ensures { result ≡ low_held f0 f1 }
{
    low_true(f1, f1) & low_true(0, f0)
}

impl Entries {
    // The entries, for judging eight vectors at once.
    pub fn eight(&self) -> Eight
        ensures { result ≡ eight_of self.now.plain self.now.named self.now.count }
    {
        let end = self.count.min(MOST_CONSTRAINTS);
        let mut plain = [0u16; MOST_CONSTRAINTS];
        let mut named = [0u16; MOST_CONSTRAINTS];
        let mut low = [0u16; MOST_CONSTRAINTS];
        for i in 0..end {
            let p = self.plain[i];
            let q = self.named[i];
            plain[i] = p / 8;
            named[i] = q / 8;
            low[i] = low_true(p, q);
        }
        Eight {
            high: Entries {
                count: self.count,
                plain,
                named,
            },
            low,
        }
    }
}

impl Eight {
    // Of the vectors 8 b to 8 b + 7, bit j being 8 b + j, those of `held` that are safe: the outputs from 3 on are as they are held, and no entry is true.
    pub fn safe_byte(&self, held: u16, f0: u16, f1: u16, b: u16) -> u16
        ensures { result ≡ safe_byte held f0 f1 self.now.high.plain self.now.high.named self.now.low self.now.high.count b }
    {
        if words::meets16(f1 / 8, f0 / 8, b) {
            words::without16(held, self.high.flips(&self.low, b))
        } else {
            0
        }
    }
}
