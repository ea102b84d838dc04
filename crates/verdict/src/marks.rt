// Marks at one read word: a bit of scratch for each vector, bit v % 8 of byte v / 8, set where passes from the vector are known to lead to a safe one.
ghost use Rattle.std.specs.Prelude.{◌≡◌, ◌≤◌, ◌^◌, min, length};
ghost use Rattle.words.specs.Loop.{some, listed};
ghost use Rattle.scan.specs.Set.{most_outputs};
ghost use Rattle.scan.specs.way.Table.{safe_over};
ghost use Rattle.scan.specs.way.Eight.{safe_byte};
ghost use Rattle.verdict.specs.Judge.{scratch_bytes};
ghost use Rattle.verdict.specs.way.Marks.{marked, with_mark, marked_where, first_vectors, has_mark};

use scan::{Eight, Entries, MOST_OUTPUTS, low_held};

// The bytes of scratch that a verdict on a set of n outputs needs, one bit for each vector; for more outputs than a set has, those of the most.
pub fn scratch_bytes(n: usize) -> usize
    ensures { result ≡ scratch_bytes (min n most_outputs) }
{
    let outputs = n.min(MOST_OUTPUTS);
    if outputs < 3 {
        1
    } else {
        (1usize << outputs) / 8
    }
}

// Whether vector v is marked; one past the scratch is not.
pub fn is_marked(marks: &[u8], v: u16) -> bool
    ensures { result ≡ marked marks.now v }
{
    let i = (v / 8) as usize;
    if i < marks.len() {
        words::bit16((v % 8) as usize, marks[i] as u16)
    } else {
        false
    }
}

// Marks vector v, if the scratch has its byte.
pub fn put_mark(marks: &mut [u8], v: u16)
    ensures { marks.new ≡ with_mark marks.old v }
{
    let i = (v / 8) as usize;
    if i < marks.len() {
        marks[i] |= 1 << (v % 8);
    }
}

// Of eight vectors those that n outputs have: the first 2^n where n is below 3.
pub fn first_vectors(n: usize) -> u16
    ensures { result ≡ first_vectors n }
{
    if n < 3 {
        (1u16 << (1u16 << n)) - 1
    } else {
        255
    }
}

// Marks the safe ones of all vectors, eight at once, and no others, by the entries for that; of each eight vectors those of `held` can be safe. Whether there
// is one.
fn mark_bytes(entries: &Eight, held: u16, f0: u16, f1: u16, marks: &mut [u8]) -> bool
    requires { (held ≤ 255) × (length marks.old ≤ 2 ^ most_outputs) }
    ensures value { result ≡ some (length marks.old) (has_mark (safe_byte held f0 f1 entries.now.high.plain entries.now.high.named entries.now.low entries.now.high.count)) }
    ensures marks_after { marks.new ≡ listed (length marks.old) (safe_byte held f0 f1 entries.now.high.plain entries.now.high.named entries.now.low entries.now.high.count) }
{
    let mut any = false;
    for b in 0..marks.len() {
        let safe = entries.safe_byte(held, f0, f1, b as u16);
        marks[b] = safe as u8;
        any |= safe != 0;
    }
    any
}

// Marks the safe vectors of n outputs and no others; whether there is one.
pub fn mark_safe(entries: &Entries, f0: u16, f1: u16, n: usize, marks: &mut [u8]) -> bool
    requires { (n ≤ most_outputs) × (length marks.old ≡ scratch_bytes n) }
    ensures value { result ≡ some (2 ^ n) (safe_over f0 f1 entries.now.plain entries.now.named entries.now.count) }
    ensures marks_after { marks.new ≡ marked_where n (safe_over f0 f1 entries.now.plain entries.now.named entries.now.count) }
{
    let held = low_held(f0, f1) & first_vectors(n);
    mark_bytes(&entries.eight(), held, f0, f1, marks)
}
