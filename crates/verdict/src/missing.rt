// The search for a read word without a safe vector, and the rejection by such a word.
ghost use Rattle.std.specs.Prelude.{◌≡◌, true, false, ◌≤◌, ◌^◌};
ghost use Rattle.words.specs.Loop.{some, first};
ghost use Rattle.scan.specs.Set.{most_outputs};
ghost use Rattle.scan.specs.Shape.{well_formed};
ghost use Rattle.scan.specs.way.Table.{safe_over};
ghost use Rattle.scan.specs.way.Eight.{safe_byte};
ghost use Rattle.verdict.specs.Judge.{lacks, none_at};
ghost use Rattle.verdict.specs.way.Marks.{has_mark};
ghost use Rattle.verdict.specs.way.Seen.{Known};

use super::marks::{first_vectors, scratch_bytes};
use super::seen::{PLACES, is_seen, keep_seen};
use super::verdict::Verdict;
use scan::{Eight, Entries, Holds, Set, columns_of, hold, low_held};

// Whether one of the vectors of the first bytes is safe, where nothing is held, by the entries for judging eight at once; of each eight those of `held` are there.
fn is_any_of(entries: &Eight, held: u16, bytes: u16) -> bool
    ensures { result ≡ some bytes (has_mark (safe_byte held 0 0 entries.now.high.plain entries.now.high.named entries.now.low entries.now.high.count)) }
{
    for b in 0..bytes {
        if entries.safe_byte(held, 0, 0, b) != 0 {
            return true;
        }
    }
    false
}

// Whether one of the vectors of n outputs makes none of the entries true: vector 0, or another.
fn is_any_safe(entries: &Entries, n: usize) -> bool
    requires { n ≤ most_outputs }
    ensures { result ≡ some (2 ^ n) (safe_over 0 0 entries.now.plain entries.now.named entries.now.count) }
{
    if entries.is_safe(0, 0, 0) {
        return true;
    }
    let held = low_held(0, 0) & first_vectors(n);
    let bytes = scratch_bytes(n) as u16;
    is_any_of(&entries.eight(), held, bytes)
}

// The first word without a safe vector, or 2 ^ r; those below `from` are known to have one, and so are the words whose masks are kept. A word is left at its first
// safe vector, by its active constraints alone, and its mask is kept.
pub fn first_without(set: &Set, from: u32, seen: &mut [u64; PLACES]) -> u32
    requires { (well_formed set.now ≡ true) × (some from (lacks set.now) ≡ false) × (from ≤ 2 ^ set.now.r) × Known set.now (lacks set.now) seen.old }
    ensures { result ≡ first (2 ^ set.now.r) (lacks set.now) }
{
    let words = 1u32 << set.r;
    let by = columns_of(set);
    let lows = by.lows();
    let mut high = by.active_high(from);
    for w in from..words {
        high = by.high_at(w, high);
        let active = lows.active_in(high, w);
        if !is_seen(seen, active) {
            if !is_any_safe(&by.enter(active), set.n) {
                return w;
            }
            keep_seen(&mut *seen, active);
        }
    }
    words
}

// The rejection by the word w, at which no vector is safe: with the lowest output that is forced both ways there, if there is one.
pub fn none_at(set: &Set, w: u32) -> Verdict
    requires { well_formed set.now ≡ true }
    ensures { result ≡ none_at set.now w }
{
    let holds = hold(*set, w);
    match holds {
        Holds::Forced { f0: _, f1: _ } => Verdict::NoVector { word: w },
        Holds::Clash { output } => Verdict::Clash { word: w, output },
    }
}
