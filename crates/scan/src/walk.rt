// The walk: the start vector, then one pass after another while the vector is unsafe.
ghost use Rattle.std.specs.Prelude.{◌≡◌};
ghost use Rattle.scan.specs.way.Table.{safe_over, pass_in};
ghost use Rattle.scan.specs.Walk.{walk_by};

use super::table::Table;

// Where a walk ends: at a safe vector, with the passes made before it; or nowhere.
#[derive(Clone, Copy)]
pub enum Walk {
    Safe { vector: u16, passes: u16 },
    Never,
}

impl Table {
    // The walk from the vector `from`, of at most as many passes as the table allows, where these outputs are forced.
    pub fn walk(&self, f0: u16, f1: u16, from: u16) -> Walk
        ensures { result ≡ walk_by (safe_over f0 f1 self.now.entries.plain self.now.entries.named self.now.entries.count) (pass_in self.now) self.now.limit from 0 }
    {
        let mut v = from;
        for made in 0..self.limit {
            if self.entries.is_safe(f0, f1, v) {
                return Walk::Safe {
                    vector: v,
                    passes: made,
                };
            }
            v = self.pass(v);
        }
        if self.entries.is_safe(f0, f1, v) {
            return Walk::Safe {
                vector: v,
                passes: self.limit,
            };
        }
        Walk::Never
    }
}
