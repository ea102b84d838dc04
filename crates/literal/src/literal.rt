// Literals: what the bytes of a body say, and what is said taken into masks and ranks.
ghost use Rattle.std.specs.Prelude.{◌≡◌, ◌+◌, ◌≤◌, ◌<◌, min, length};
ghost use Rattle.scan.specs.Set.{most_reads, most_outputs};
ghost use Rattle.header.specs.Tag.{literal_size};
ghost use Rattle.literal.specs.Literal.{is_output, is_negated, spare, four_bits, narrow, six_bits, wide, place, is_literal, last_literal, literals_of};
ghost use Rattle.literal.specs.way.Literal.{literal_at, said_at, sign_bits, in_word, of_word, literals_told};

use choice::both;
use header::{Fault, literal_size, names_high};
use scan::{Constraint, MOST_OUTPUTS, MOST_READS};

// A literal as its bytes say it. clear: the bits that have to be zero are. No Option: the definitions take what the bytes say first, and test it, `clear` with it, afterwards.
#[derive(Clone, Copy)]
pub struct Said {
    pub clear: bool,
    pub out: bool,
    pub negated: bool,
    pub number: usize,
    pub rank: u8,
}

// The bits of a word for the literals of one sign: no fewer than the places of literals.
const SIGN_BITS: usize = 32;

// A mask of read points is below the first, a mask of outputs below the second.
const READS_END: u64 = 1 << MOST_READS;

const OUTPUTS_END: u64 = 1 << MOST_OUTPUTS;

fn is_output(first: u8) -> bool
    ensures { result ≡ is_output first }
{
    (first >> 6) & 1 == 1
}

fn is_negated(first: u8) -> bool
    ensures { result ≡ is_negated first }
{
    first >> 7 == 1
}

fn spare_bits(first: u8) -> u8
    ensures { result ≡ spare first }
{
    (first >> 4) & 3
}

fn four_bits(first: u8) -> usize
    ensures { result ≡ four_bits first }
{
    (first & 0x0F) as usize
}

// The literal of two bytes.
fn narrow_said(first: u8, rank: u8) -> Said
    ensures { result ≡ narrow first rank }
{
    let clear = spare_bits(first) == 0;
    let out = is_output(first);
    let negated = is_negated(first);
    let number = four_bits(first);
    Said {
        clear,
        out,
        negated,
        number,
        rank,
    }
}

fn six_bits(first: u8) -> u8
    ensures { result ≡ six_bits first }
{
    first & 0x3F
}

// The literal of three bytes.
fn wide_said(first: u8, number: u8, rank: u8) -> Said
    ensures { result ≡ wide first number rank }
{
    let clear = six_bits(first) == 0;
    let out = is_output(first);
    let negated = is_negated(first);
    let number = number as usize;
    Said {
        clear,
        out,
        negated,
        number,
        rank,
    }
}

// The literal that begins at place i of a body, wide or not.
fn literal_at(body: &[u8], i: usize, wide: bool) -> Said
    requires { i + literal_size wide ≤ length body.now }
    ensures { result ≡ literal_at wide body.now i }
{
    if wide {
        return wide_said(body[i], body[i + 1], body[i + 2]);
    }
    narrow_said(body[i], body[i + 1])
}

// The literal at place i of a body; none where too few bytes are left.
fn said_at(body: &[u8], i: usize, wide: bool) -> Said
    requires { i < length body.now }
    ensures { result ≡ said_at wide body.now i }
{
    if literal_size(wide) <= body.len() - i {
        return literal_at(body, i, wide);
    }
    Said {
        clear: false,
        out: false,
        negated: false,
        number: 0,
        rank: 0,
    }
}

// The literal's place in the order: read points by number, then outputs by number.
fn place_of(l: Said) -> usize
    requires { l.number < sign_bits }
    ensures { result ≡ place l }
{
    if l.out {
        return MOST_READS + l.number;
    }
    l.number
}

// The bits are zero that have to be, the point exists, and a read point's rank is 0.
fn is_literal(l: Said, r: usize, n: usize) -> bool
    ensures { result ≡ is_literal l r n }
{
    if !l.clear {
        return false;
    }
    if l.out {
        return l.number < n;
    }
    if l.rank != 0 {
        return false;
    }
    l.number < r
}

// The word of the literals taken so far with one more, of this sign and at this place: no branch by its kind.
fn with_literal(word: u64, negated: bool, at: usize) -> u64
    requires { at < sign_bits }
    ensures { result ≡ in_word word negated at }
{
    let bit = if negated { SIGN_BITS + at } else { at };
    word | (1u64 << bit)
}

// The constraint of the word and the ranks.
fn constraint_of(word: u64, ranks: [u8; MOST_OUTPUTS]) -> Constraint
    ensures { result ≡ of_word word ranks }
{
    Constraint {
        read_plain: (word % READS_END) as u32,
        read_negated: ((word >> SIGN_BITS) % READS_END) as u32,
        out_plain: ((word >> MOST_READS) % OUTPUTS_END) as u16,
        out_negated: ((word >> (SIGN_BITS + MOST_READS)) % OUTPUTS_END) as u16,
        ranks,
    }
}

// After the last literal: a wide body names a read point above 15, and every body an output. `next` is the place behind the last literal.
fn last_literal(
    wide: bool,
    next: usize,
    word: u64,
    ranks: [u8; MOST_OUTPUTS],
) -> Result<Constraint, Fault>
    ensures { literals_told result ≡ last_literal wide next (of_word word ranks) }
{
    let made = constraint_of(word, ranks);
    let low = both(wide, !names_high(made));
    let bare = next <= MOST_READS;
    if low {
        return Err(Fault::NoHighRead);
    }
    if bare {
        return Err(Fault::NoOutput);
    }
    Ok(made)
}

// The literals of a body, one loop for both forms.
// No `for` over `body.chunks(size)`: it proves, but loading the longest files takes 7 and 16 % more instructions.
fn literals_in(body: &[u8], wide: bool, r: usize, n: usize) -> Result<Constraint, Fault>
    ensures { literals_told result ≡ literals_of wide (min r most_reads) (min n most_outputs) body.now }
{
    let reads = r.min(MOST_READS);
    let outputs = n.min(MOST_OUTPUTS);
    let size = literal_size(wide);
    let mut word = 0;
    let mut ranks = [0u8; MOST_OUTPUTS];
    let mut next = 0;
    let mut i = 0;
    while i < body.len() {
        let l = said_at(body, i, wide);
        if !is_literal(l, reads, outputs) {
            return Err(Fault::BadLiteral);
        }
        let place = place_of(l);
        if place < next {
            return Err(Fault::NotRising);
        }
        word = with_literal(word, l.negated, place);
        next = place + 1;
        i += size;
        if l.out {
            let number = l.number;
            ranks[number] = l.rank;
        }
    }
    last_literal(wide, next, word, ranks)
}

// The constraint of a body of literals, wide or not, for a set of r read points and n outputs; of MOST_READS and MOST_OUTPUTS where these are more.
// Each form has its own call, so that the compiler makes a loop for each.
pub fn literals_of(body: &[u8], wide: bool, r: usize, n: usize) -> Result<Constraint, Fault>
    ensures { literals_told result ≡ literals_of wide (min r most_reads) (min n most_outputs) body.now }
{
    if wide {
        return literals_in(body, true, r, n);
    }
    literals_in(body, false, r, n)
}
