// The outputs that simple constraints hold, and the vector that a walk starts from.
ghost use Rattle.std.specs.Prelude.{◌≡◌, ◌≤◌};
ghost use Rattle.words.specs.Loop.{first};
ghost use Rattle.scan.specs.Set.{most_outputs};
ghost use Rattle.scan.specs.Holds.{both_ways, reckoned, start_from};
ghost use Rattle.scan.specs.way.Holds.{holds_by, holds_at, unheld_from, limit_by};

use super::columns::{Columns, columns_of};
use super::set::{MOST_CONSTRAINTS, Set};
use choice::{both, pick};

// Two words or an output, and no Result: neither is a failure, and document 01 and the theorems name F0, F1 and the clash.
// What the simple constraints force: the outputs held to 0 (F0) and to 1 (F1); or, where one is forced both ways, the lowest such output.
#[derive(Clone, Copy)]
pub enum Holds {
    Forced { f0: u16, f1: u16 },
    Clash { output: u16 },
}

// The bits of a word of outputs.
const BITS: u16 = 16;

// The lowest output that both words have, or 16.
fn lowest_both(f0: u16, f1: u16) -> u16
    ensures { result ≡ first 16 (both_ways f0 f1) }
{
    for k in 0..BITS {
        if both(words::bit16(k as usize, f0), words::bit16(k as usize, f1)) {
            return k;
        }
    }
    BITS
}

// The holds by the two words of forced outputs.
fn reckon(f0: u16, f1: u16) -> Holds
    ensures { result ≡ reckoned f0 f1 }
{
    if f0 & f1 == 0 {
        return Holds::Forced { f0, f1 };
    }
    Holds::Clash {
        output: lowest_both(f0, f1),
    }
}

impl Columns {
    // The holds of those constraints that the mask has: the active simple ones hold.
    pub fn hold_by(&self, holding: u64) -> Holds
        ensures { result ≡ holds_by self.now.out_plain self.now.out_negated self.now.m holding }
    {
        let end = self.m.min(MOST_CONSTRAINTS);
        let mut f0: u16 = 0;
        let mut f1: u16 = 0;
        for i in 0..end {
            let held = words::bit64(i, holding);
            f0 |= pick(held, self.out_plain[i], 0);
            f1 |= pick(held, self.out_negated[i], 0);
        }
        reckon(f0, f1)
    }
}

// The reckoning of holds of a set at the read word w.
pub fn hold(set: Set, w: u32) -> Holds
    ensures { result ≡ holds_at set w }
{
    let by = columns_of(&set);
    by.hold_by(by.active_at(w) & by.simple)
}

// Of n outputs those that are left to passes: those that are not held, and none at a clash.
pub fn unheld_of(n: usize, h: Holds) -> u16
    requires { n ≤ most_outputs }
    ensures { result ≡ unheld_from n h }
{
    match h {
        Holds::Forced { f0, f1 } => words::without16(words::low16(n), f0 | f1),
        Holds::Clash { output: _ } => 0,
    }
}

// The most passes of a walk where these outputs are unheld: 2 ^ f - 1.
pub fn pass_limit(unheld: u16) -> u16
    ensures { result ≡ limit_by unheld }
{
    words::low16(words::ones16(unheld) as usize)
}

// The vector that the walk from a request starts at: (not F0 and request) or F1.
pub fn start_vector(f0: u16, f1: u16, request: u16) -> u16
    ensures { result ≡ start_from f0 f1 request }
{
    words::without16(request, f0) | f1
}
