// The active constraints of eight read words in a row, which differ in read points 0 to 2 alone: what their literals of these three points ask for is looked up
// in eight masks that are made once, and what the others ask for is one mask for the eight words.
ghost use Rattle.std.specs.Prelude.{◌≡◌};
ghost use Rattle.scan.specs.way.Block.{active_low, active_high, lows_of, high_at, active_in};

use super::columns::Columns;
use super::set::MOST_CONSTRAINTS;
use choice::pick;

// The read words of a block.
pub const WORDS: usize = 8;

// Of each value of read points 0 to 2 the constraints whose literals of these points are true there.
#[derive(Clone, Copy)]
pub struct Lows {
    pub of: [u64; WORDS],
}

// `active_at`, `active_low` and `active_high` are three loops, which is plainer: one with a closure for the part of the read points would have a contract that says of every function that
// agrees with the closure what each of these says in a line.
impl Columns {
    // The constraints whose literals of read points 0 to 2 are true at the word w.
    fn active_low(&self, w: u32) -> u64
        ensures { result ≡ active_low self.now.read_plain self.now.read_named self.now.m w }
    {
        let end = self.m.min(MOST_CONSTRAINTS);
        let low = w % 8;
        let mut active: u64 = 0;
        for i in 0..end {
            active |= pick(
                low & self.read_named[i] % 8 == self.read_plain[i] % 8,
                1 << i,
                0,
            );
        }
        active
    }

    // Those whose other read literals are true there: they are the same at the eight words of a block.
    pub fn active_high(&self, w: u32) -> u64
        ensures { result ≡ active_high self.now.read_plain self.now.read_named self.now.m w }
    {
        let end = self.m.min(MOST_CONSTRAINTS);
        let high = w / 8;
        let mut active: u64 = 0;
        for i in 0..end {
            active |= pick(
                high & self.read_named[i] / 8 == self.read_plain[i] / 8,
                1 << i,
                0,
            );
        }
        active
    }

    // The masks of the eight values of read points 0 to 2.
    pub fn lows(&self) -> Lows
        ensures { result.of ≡ lows_of self.now.read_plain self.now.read_named self.now.m }
    {
        let mut of = [0u64; WORDS];
        for w in 0..8u32 {
            of[w as usize] = self.active_low(w);
        }
        Lows { of }
    }

    // The mask of the other read literals at the word w: made anew at the first word of a block, else the one that is kept.
    pub fn high_at(&self, w: u32, kept: u64) -> u64
        ensures { result ≡ high_at self.now.read_plain self.now.read_named self.now.m w kept }
    {
        if w % 8 == 0 {
            self.active_high(w)
        } else {
            kept
        }
    }
}

impl Lows {
    // The constraints that are active at the word w, by both masks.
    pub fn active_in(&self, high: u64, w: u32) -> u64
        ensures { result ≡ active_in self.now.of high w }
    {
        let k = (w % 8) as usize;
        high & self.of[k]
    }
}
