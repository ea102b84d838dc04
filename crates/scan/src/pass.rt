// Which outputs of a constraint yield: of those not held, those of the lowest rank.
ghost use Rattle.std.specs.Prelude.{◌≡◌, cond, ◌≤◌, ◌<◌, ◌^◌};
ghost use Rattle.scan.specs.Set.{most_outputs};
ghost use Rattle.scan.specs.Pass.{lowest, has_rank, yielding};

use super::set::{Constraint, MOST_OUTPUTS};
use choice::{both, pick};

// Above every rank.
const NO_RANK: u16 = 256;

// The lowest rank at the outputs of `own`, of n: 256 if there are none.
fn lowest_rank(c: Constraint, own: u16, n: usize) -> u16
    requires { n ≤ most_outputs }
    ensures { result ≡ lowest c own n }
{
    let mut low: u16 = NO_RANK;
    for k in 0..n {
        low = pick(words::bit16(k, own), low.min(c.ranks[k] as u16), low);
    }
    low
}

// The word of output k if it is one of `own` and its rank is `low`, else 0.
fn yield_at(c: Constraint, own: u16, low: u16, k: usize) -> u16
    requires { k < most_outputs }
    ensures { result ≡ cond (has_rank c own low k) (2 ^ k) 0 }
{
    pick(
        both(words::bit16(k, own), c.ranks[k] as u16 == low),
        1 << k,
        0,
    )
}

// The outputs of `own`, of n, of the lowest rank among them.
pub fn yielding_of(n: usize, c: Constraint, own: u16) -> u16
    requires { n ≤ most_outputs }
    ensures { result ≡ yielding n c own }
{
    let low = lowest_rank(c, own, n);
    let mut out: u16 = 0;
    for k in 0..n {
        out |= yield_at(c, own, low, k);
    }
    out
}

// The same of outputs that are among n: with loops of a fixed length, for which the compiler needs no loop.
pub fn yielding_within(n: usize, c: Constraint, own: u16) -> u16
    requires { (n ≤ most_outputs) × (own < 2 ^ n) }
    ensures { result ≡ yielding n c own }
{
    if n <= 4 {
        return yielding_of(4, c, own);
    }
    if n <= 8 {
        return yielding_of(8, c, own);
    }
    yielding_of(MOST_OUTPUTS, c, own)
}
