// The constraints that are active at a read word: those whose read literals are all true there. Nothing else of this crate sees a read word.
ghost use Rattle.std.specs.Prelude.{◌≡◌};
ghost use Rattle.scan.specs.way.Columns.{active_by};

use super::columns::Columns;
use super::set::MOST_CONSTRAINTS;
use choice::pick;

impl Columns {
    // The constraints that are active at the read word w, bit i being constraint i.
    pub fn active_at(&self, w: u32) -> u64
        ensures { result ≡ active_by self.now.read_plain self.now.read_named self.now.m w }
    {
        let end = self.m.min(MOST_CONSTRAINTS);
        let mut active: u64 = 0;
        for i in 0..end {
            active |= pick(w & self.read_named[i] == self.read_plain[i], 1 << i, 0);
        }
        active
    }
}
