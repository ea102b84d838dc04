// The verdict: whether at every read word some vector is safe and every request's walk reaches a safe one.
ghost use Rattle.std.specs.Prelude.{◌≡◌, true, length, drop};
ghost use Rattle.scan.specs.Shape.{well_formed};
ghost use Rattle.verdict.specs.Judge.{lacks, judge_words, scratch_bytes, judge_of, loose_bytes};
ghost use Rattle.verdict.specs.FirstFailing.{fails, first_failing};
ghost use Rattle.verdict.specs.way.Paths.{trail_places};
ghost use Rattle.verdict.specs.way.Seen.{Known};

use super::marks::{mark_safe, scratch_bytes};
use super::missing::{first_without, none_at};
use super::paths::{TRAIL, settle};
use super::seen::{PLACES, is_seen, keep_seen};
use scan::{Holds, Set, columns_of, start_vector};
use shape::well_formed;

// Accepted, or why not: the first read word without a safe vector, with the lowest output that simple constraints force both ways there, if there is one; or, where
// every word has a safe vector, the first word with a request whose walk never is safe, and its first such request.
// No Result: `judge_unnamed` and `judge_by_bytes` of promise give one of this type.
#[derive(Clone, Copy)]
pub enum Verdict {
    Accepted,
    BadSet,
    ShortScratch,
    NoVector { word: u32 },
    Clash { word: u32, output: u16 },
    NoEnd { word: u32, request: u16 },
}

// The first word that fails, and how, with a bit of scratch for each vector: document 01's loops. A word at which the same constraints are active as at a good
// word before it is good.
fn first_failing(
    set: &Set,
    seen: &mut [u64; PLACES],
    marks: &mut [u8],
    trail: &mut [u16; TRAIL],
) -> Verdict
    requires { (well_formed set.now ≡ true) × (length marks.old ≡ scratch_bytes set.now.n) × (length trail.old ≡ trail_places) × Known set.now (fails set.now) seen.old }
    ensures value { result ≡ first_failing set.now }
    ensures known { Known set.now (fails set.now) seen.new }
{
    let words = 1u32 << set.r;
    // no shifted 1, for speed: the test against it would become a shift at every request
    let requests = 2u16.pow(set.n as u32);
    let by = columns_of(set);
    let lows = by.lows();
    let mut high: u64 = 0;
    let mut found = Verdict::Accepted;
    'words: for w in 0..words {
        high = by.high_at(w, high);
        let active = lows.active_in(high, w);
        if is_seen(seen, active) {
            continue 'words;
        }
        let t = by.table(set, active);
        let (f0, f1) = match t.holds {
            Holds::Forced { f0, f1 } => (f0, f1),
            Holds::Clash { output } => {
                found = Verdict::Clash { word: w, output };
                break 'words;
            }
        };
        if !mark_safe(&t.entries, f0, f1, set.n, &mut *marks) {
            found = none_at(set, w);
            break 'words;
        }
        for g in 0..requests {
            if !settle(&t, start_vector(f0, f1, g), &mut *marks, &mut *trail) {
                found = Verdict::NoEnd {
                    word: w,
                    request: g,
                };
                break 'words;
            }
        }
        keep_seen(&mut *seen, active);
    }
    found
}

// The verdict on the words, by the first of them that fails: an endless walk there gives way to a later word without a safe vector, where no change of ranks would
// help.
fn revise(set: &Set, found: Verdict, seen: &mut [u64; PLACES]) -> Verdict
    requires { (well_formed set.now ≡ true) × (found ≡ first_failing set.now) × Known set.now (lacks set.now) seen.old }
    ensures { result ≡ judge_words set.now }
{
    match found {
        Verdict::NoEnd { word, request: _ } => {
            let without = first_without(set, word + 1, seen);
            if without < 1u32 << set.r {
                return none_at(set, without);
            }
            found
        }
        _ => found,
    }
}

// The verdict on a set, with scratch of at least `scratch_bytes n` bytes, one bit for each vector: of those the content afterwards is free, later bytes are untouched.
pub fn judge(set: Set, scratch: &mut [u8]) -> Verdict
    ensures value { result ≡ judge_of set (length scratch.old) }
    ensures scratch_unchanged { drop (loose_bytes set (length scratch.old)) scratch.new ≡ drop (loose_bytes set (length scratch.old)) scratch.old }
{
    if !well_formed(set) {
        return Verdict::BadSet;
    }
    let bytes = scratch_bytes(set.n);
    if scratch.len() < bytes {
        return Verdict::ShortScratch;
    }
    let mut seen = [0u64; PLACES];
    let mut trail = [0u16; TRAIL];
    let found = first_failing(&set, &mut seen, &mut scratch[0..bytes], &mut trail);
    revise(&set, found, &mut seen)
}
