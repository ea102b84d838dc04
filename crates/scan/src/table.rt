// The table of the active constraints: the holds, the most passes of a walk and, of each active constraint that is not simple, what it names and what it flips.
// A pass and the test of safety go over the table: they are handed no set and no read word.
ghost use Rattle.std.specs.Prelude.{◌≡◌};
ghost use Rattle.std.specs.Int.Bits.{bit_and};
ghost use Rattle.words.specs.Word.{without};
ghost use Rattle.scan.specs.way.Holds.{holds_by};
ghost use Rattle.scan.specs.way.Table.{table_by, pass_in};

use super::columns::Columns;
use super::entries::{Entries, NEVER, fill_up};
use super::holds::{Holds, pass_limit, unheld_of};
use super::pass::yielding_within;
use super::set::{MOST_CONSTRAINTS, MOST_OUTPUTS, Set};

// The holds, the most passes, the entries, and of each entry the outputs that yield.
#[derive(Clone, Copy)]
pub struct Table {
    pub holds: Holds,
    pub limit: u16,
    pub entries: Entries,
    pub flip: [u16; MOST_CONSTRAINTS],
}

// The table with these holds, and an entry for each constraint that the mask has.
fn fill(s: &Set, h: Holds, entered: u64) -> Table
    ensures { result ≡ table_by s.now h entered }
{
    let m = s.m.min(MOST_CONSTRAINTS);
    let n = s.n.min(MOST_OUTPUTS);
    let unheld = unheld_of(n, h);
    let mut plain = [NEVER; MOST_CONSTRAINTS];
    let mut named = [0u16; MOST_CONSTRAINTS];
    let mut flip = [0u16; MOST_CONSTRAINTS];
    let mut count: usize = 0;
    for i in 0..m {
        let c = s.constraints[i];
        let on = words::bit64(i, entered);
        if on {
            let outs = c.out_plain | c.out_negated;
            plain[count] = c.out_plain;
            named[count] = outs;
            flip[count] = yielding_within(n, c, outs & unheld);
            count += 1;
        }
    }
    Table {
        holds: h,
        limit: pass_limit(unheld),
        entries: Entries {
            count: fill_up(count),
            plain,
            named,
        },
        flip,
    }
}

impl Columns {
    // The table of the set where the constraints of the mask are active.
    pub fn table(&self, set: &Set, active: u64) -> Table
        ensures { result ≡ table_by set.now (holds_by self.now.out_plain self.now.out_negated self.now.m (bit_and active self.now.simple)) (without active self.now.simple) }
    {
        let holding = active & self.simple;
        fill(set, self.hold_by(holding), active ^ holding)
    }
}

impl Table {
    // One pass, from the vector v.
    pub fn pass(&self, v: u16) -> u16
        ensures { result ≡ pass_in self.now v }
    {
        v ^ self.entries.flips(&self.flip, v)
    }
}
