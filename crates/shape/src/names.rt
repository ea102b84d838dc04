// Names of points: eight byte places by value, compared byte by byte.
ghost use Rattle.std.specs.Prelude.{◌≡◌, ◌≤◌, min, length};
ghost use Rattle.scan.specs.Set.{most_reads, most_outputs, name_places};
ghost use Rattle.scan.specs.Names.{name_byte, all_name_bytes, length_ok, padded, name_bytes, name_ok, name_zero, same_name};
ghost use Rattle.shape.specs.way.Names.{next_ok, first_name, name_used, ReadNames, OutputNames};
ghost use Rattle.shape.specs.Spelling.{spelling};

use choice::{both, either};
use scan::{MOST_OUTPUTS, MOST_READS, NAME_PLACES, OutputPoint, ReadPoint};

// Whether a name may have the byte.
pub fn is_name_byte(b: u8) -> bool
    ensures { result ≡ name_byte b }
{
    both(0x21 <= b, b <= 0x7E)
}

// Whether a name may have each of the bytes.
fn are_name_bytes(bytes: &[u8]) -> bool
    ensures { result ≡ all_name_bytes bytes.now }
{
    bytes.iter().all(|b| is_name_byte(*b))
}

// Whether a name may have so many bytes.
pub fn is_length_ok(bytes: &[u8]) -> bool
    ensures { result ≡ length_ok bytes.now }
{
    both(1 <= bytes.len(), bytes.len() <= NAME_PLACES)
}

// The bytes with zeros up to eight places.
fn pad(bytes: &[u8]) -> [u8; NAME_PLACES]
    requires { length bytes.now ≤ name_places }
    ensures { result ≡ padded bytes.now }
{
    let mut name = [0u8; NAME_PLACES];
    name[..bytes.len()].copy_from_slice(bytes);
    name
}

// The eight places of the name that the bytes spell, if they are one.
pub fn spell(bytes: &[u8]) -> Option<[u8; NAME_PLACES]>
    ensures { result ≡ spelling bytes.now }
{
    if is_length_ok(bytes) && are_name_bytes(bytes) {
        return Some(pad(bytes));
    }
    None
}

// How many bytes the name has: those before the first zero.
pub fn name_length(name: [u8; NAME_PLACES]) -> usize
    ensures { (result ≡ length (name_bytes name)) × (result ≤ name_places) }
{
    name.iter().position(|c| *c == 0).unwrap_or(NAME_PLACES)
}

// A zero, or a name byte behind a byte that is no zero.
fn is_next_ok(before: u8, b: u8) -> bool
    ensures { result ≡ next_ok before b }
{
    either(b == 0, both(is_name_byte(b), before != 0))
}

// Whether the places hold 1 to 8 name bytes and then zeros.
pub fn is_name(name: [u8; NAME_PLACES]) -> bool
    ensures { result ≡ name_ok name }
{
    let mut before = name[0];
    let mut ok = before != 0;
    for b in name {
        ok = both(ok, is_next_ok(before, b));
        before = b;
    }
    ok
}

// Whether all places are zero. Each is looked at, with no branch: with `==` here, below and of ranks a scan of a set of many points takes up to a fifth longer.
pub fn is_zero_name(name: [u8; NAME_PLACES]) -> bool
    ensures { result ≡ name_zero name }
{
    let mut ok = true;
    for k in 0..NAME_PLACES {
        ok = both(ok, name[k] == 0);
    }
    ok
}

// The names of the read points, for functions to which they are lent.
pub fn names_of_reads(reads: [ReadPoint; MOST_READS]) -> [[u8; NAME_PLACES]; MOST_READS]
    ensures { ReadNames result reads }
{
    let none = [0u8; NAME_PLACES];
    let mut names = [none; MOST_READS];
    for k in 0..MOST_READS {
        names[k] = reads[k].name;
    }
    names
}

// The names of the outputs. One function for both kinds of points would need a trait with the name and its law: no plainer than these lines.
pub fn names_of_outputs(outputs: [OutputPoint; MOST_OUTPUTS]) -> [[u8; NAME_PLACES]; MOST_OUTPUTS]
    ensures { OutputNames result outputs }
{
    let none = [0u8; NAME_PLACES];
    let mut names = [none; MOST_OUTPUTS];
    for k in 0..MOST_OUTPUTS {
        names[k] = outputs[k].name;
    }
    names
}

// Whether two names are one, place by place, for the same reason with no `==`.
fn is_same_name(a: [u8; NAME_PLACES], b: [u8; NAME_PLACES]) -> bool
    ensures { result ≡ same_name a b }
{
    let mut same = true;
    for k in 0..NAME_PLACES {
        same = both(same, a[k] == b[k]);
    }
    same
}

// The first of the first i names that is the name, or i. With `position` in place of the loop a scan of a small set takes a twentieth longer.
pub fn first_of(names: &[[u8; NAME_PLACES]], i: usize, name: [u8; NAME_PLACES]) -> usize
    requires { i ≤ length names.now }
    ensures { result ≡ first_name names.now i name }
{
    for k in 0..i {
        if is_same_name(names[k], name) {
            return k;
        }
    }
    i
}

// Whether one of the first i names of read points, or of the first j of outputs, is the name.
pub fn is_name_used<'a>(
    reads: &'a [[u8; NAME_PLACES]; MOST_READS],
    i: usize,
    outputs: &'a [[u8; NAME_PLACES]; MOST_OUTPUTS],
    j: usize,
    name: [u8; NAME_PLACES],
) -> bool
    ensures { result ≡ name_used reads.now (min i most_reads) outputs.now (min j most_outputs) name }
{
    let a = i.min(MOST_READS);
    let b = j.min(MOST_OUTPUTS);
    either(first_of(reads, a, name) < a, first_of(outputs, b, name) < b)
}
