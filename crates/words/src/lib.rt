// Numbers as bit words: bit k of a word is its binary digit k. Every function is total: a number past a word's width is a case like the others.
// A function for each width: a trait over the widths would say each body again, and its contract would speak of the number that a word stands for.
#![tactic(auto)]

ghost use Rattle.std.specs.Prelude.{◌≡◌, Bool, ◌^◌, min, ltb};
ghost use Rattle.words.specs.Word.{bit, low, without, meets, popcount};

// Whether bit k of x is set; a bit past the word's width is not.
pub fn bit32(k: usize, x: u32) -> bool
    ensures { result ≡ bit k x }
{
    if k < 32 { (x >> k) & 1 == 1 } else { false }
}

pub fn bit64(k: usize, x: u64) -> bool
    ensures { result ≡ bit k x }
{
    if k < 64 { (x >> k) & 1 == 1 } else { false }
}

pub fn bit16(k: usize, x: u16) -> bool
    ensures { result ≡ bit k x }
{
    bit32(k, x as u32)
}

// The word of the n low bits; of all sixteen where n is more.
pub fn low16(n: usize) -> u16
    ensures { result ≡ low (min n 16) }
{
    if n < 16 { (1u16 << n) - 1 } else { 0xFFFF }
}

// Whether x has no bit from n on.
pub fn fits32(x: u32, n: usize) -> bool
    ensures { result ≡ ltb x (2 ^ n) }
{
    if n < 32 { x < (1u32 << n) } else { true }
}

pub fn fits16(x: u16, n: usize) -> bool
    ensures { result ≡ ltb x (2 ^ n) }
{
    fits32(x as u32, n)
}

// How many bits of x are set.
pub fn ones16(x: u16) -> u32
    ensures { result ≡ popcount x }
{
    u16::count_ones(x)
}

// The bits of x that y has not.
pub fn without16(x: u16, y: u16) -> u16
    ensures { result ≡ without x y }
{
    x ^ (x & y)
}

// Whether every bit of plain is set in w, and none of negated.
pub fn meets16(plain: u16, negated: u16, w: u16) -> bool
    ensures { result ≡ meets plain negated w }
{
    if w & plain == plain {
        w & negated == 0
    } else {
        false
    }
}
