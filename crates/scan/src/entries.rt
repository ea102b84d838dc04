// Entries: what each asks of a vector, and whether one of them is true there. Those of the active constraints alone are for judging vectors where no pass is made:
// no holds, and not what yields.
ghost use Rattle.std.specs.Prelude.{◌≡◌, cond, ◌≤◌, eqb};
ghost use Rattle.std.specs.Int.Bits.{bit_and};
ghost use Rattle.scan.specs.Set.{most_constraints};
ghost use Rattle.scan.specs.way.Table.{filled_up, flips_over, any_true, safe_over};
ghost use Rattle.scan.specs.way.Entries.{entries_by};

use super::columns::Columns;
use super::set::MOST_CONSTRAINTS;

// The entries below count: the outputs named plain, and all the outputs named. Two arrays are no less plain than one of structs, and a loop takes many entries at once.
// They are filled up to a multiple of sixteen with entries that are never true, so that a loop over them has no rest.
#[derive(Clone, Copy)]
pub struct Entries {
    pub count: usize,
    pub plain: [u16; MOST_CONSTRAINTS],
    pub named: [u16; MOST_CONSTRAINTS],
}

// An entry that names no output and asks for this is never true.
pub const NEVER: u16 = 1;

// The entries that are gone over at a time.
const LANES: usize = 16;

// The next multiple of sixteen.
pub fn fill_up(count: usize) -> usize
    requires { count ≤ most_constraints }
    ensures { result ≡ filled_up count }
{
    (count + (LANES - 1)) / LANES * LANES
}

// What an entry flips at the vector v.
pub fn flip_if(v: u16, plain: u16, named: u16, flip: u16) -> u16
    ensures { result ≡ cond (eqb (bit_and v named) plain) flip 0 }
{
    if v & named == plain { flip } else { 0 }
}

impl Entries {
    // What the true ones flip at the vector v, joined, by what each of them flips.
    pub fn flips(&self, flip: &[u16; MOST_CONSTRAINTS], v: u16) -> u16
        ensures { result ≡ flips_over self.now.plain self.now.named flip.now self.now.count v }
    {
        let end = self.count.min(MOST_CONSTRAINTS);
        let mut flips: u16 = 0;
        for i in 0..end {
            flips |= flip_if(v, self.plain[i], self.named[i], flip[i]);
        }
        flips
    }

    // Whether one of them is true at the vector v.
    fn is_any_true(&self, v: u16) -> bool
        ensures { result ≡ any_true self.now.plain self.now.named self.now.count v }
    {
        let end = self.count.min(MOST_CONSTRAINTS);
        let mut found = false;
        for i in 0..end {
            found |= v & self.named[i] == self.plain[i];
        }
        found
    }

    // Whether the vector v is safe: every held output is as it is held, and none of the entries is true.
    pub fn is_safe(&self, f0: u16, f1: u16, v: u16) -> bool
        ensures { result ≡ safe_over f0 f1 self.now.plain self.now.named self.now.count v }
    {
        if words::meets16(f1, f0, v) {
            !self.is_any_true(v)
        } else {
            false
        }
    }
}

impl Columns {
    // An entry for each constraint that the mask has, simple or not.
    pub fn enter(&self, entered: u64) -> Entries
        ensures { result ≡ entries_by self.now.out_plain self.now.out_negated self.now.m entered }
    {
        let end = self.m.min(MOST_CONSTRAINTS);
        let mut plain = [NEVER; MOST_CONSTRAINTS];
        let mut named = [0u16; MOST_CONSTRAINTS];
        let mut count: usize = 0;
        for i in 0..end {
            let on = words::bit64(i, entered);
            let p = self.out_plain[i];
            let q = self.out_negated[i];
            if on {
                plain[count] = p;
                named[count] = p | q;
                count += 1;
            }
        }
        Entries {
            count: fill_up(count),
            plain,
            named,
        }
    }
}
