// The bytes of a set: five of its counts and its rest word, ten of each read point's place, eight of each output's, and twenty-four of each constraint's.
ghost use Rattle.std.specs.Prelude.{◌≡◌, ◌<◌, ◌%◌, get_or};
ghost use Rattle.scan.specs.declared.set.Set.{Set};
ghost use Rattle.prepared.specs.Put.{digit, kind_byte, index_byte, read_bytes, constraint_bytes, up_to, bytes_of};

use super::PREPARED_BYTES;
use scan::{
    Constraint, Kind, MOST_CONSTRAINTS, MOST_OUTPUTS, MOST_READS, OutputPoint, ReadPoint, Set,
};

// The low eight bits of a count.
fn count_byte(count: usize) -> u8
    ensures { result ≡ count % 256 }
{
    (count % 256) as u8
}

// Byte j of a number, the lowest first.
fn digit_of(x: u32, j: usize) -> u8
    requires { j < 4 }
    ensures { result ≡ digit x j }
{
    x.to_le_bytes()[j]
}

fn kind_byte(kind: Kind) -> u8
    ensures { result ≡ kind_byte kind }
{
    match kind {
        Kind::Sensor => 0,
        Kind::PastOutput(_) => 1,
        Kind::PastSensor(_) => 2,
    }
}

fn index_byte(kind: Kind) -> u8
    ensures { result ≡ index_byte kind }
{
    match kind {
        Kind::Sensor => 0,
        Kind::PastOutput(i) => i,
        Kind::PastSensor(i) => i,
    }
}

// Byte j of a read point.
fn read_byte(p: ReadPoint, j: usize) -> u8
    requires { j < 10 }
    ensures { result ≡ get_or (read_bytes p) j 0 }
{
    let kind = p.kind;
    if j == 0 {
        return kind_byte(kind);
    }
    if j == 1 {
        return index_byte(kind);
    }
    p.name[j - 2]
}

// Byte j of a constraint.
fn constraint_byte(c: Constraint, j: usize) -> u8
    requires { j < 24 }
    ensures { result ≡ get_or (constraint_bytes c) j 0 }
{
    if j < 4 {
        return digit_of(c.read_plain, j);
    }
    if j < 8 {
        return digit_of(c.read_negated, j - 4);
    }
    if j < 10 {
        return digit_of(c.out_plain as u32, j - 8);
    }
    if j < 12 {
        return digit_of(c.out_negated as u32, j - 10);
    }
    c.ranks[j - 12]
}

// The counts and the rest word.
fn put_head(out: &mut [u8; PREPARED_BYTES], r: usize, n: usize, m: usize, rest: u16)
    ensures { (s : Set) → s.r ≡ r → s.n ≡ n → s.m ≡ m → s.rest ≡ rest → out.old ≡ up_to s 0 → out.new ≡ up_to s 5 }
{
    out[0] = count_byte(r);
    out[1] = count_byte(n);
    out[2] = count_byte(m);
    out[3] = digit_of(rest as u32, 0);
    out[4] = digit_of(rest as u32, 1);
}

// The read points, behind the head.
fn put_reads(out: &mut [u8; PREPARED_BYTES], reads: [ReadPoint; MOST_READS])
    ensures { (s : Set) → s.reads ≡ reads → out.old ≡ up_to s 5 → out.new ≡ up_to s 205 }
{
    for i in 5..205 {
        let p = reads[(i - 5) / 10];
        out[i] = read_byte(p, (i - 5) % 10);
    }
}

// The outputs, behind the read points. One function for the three kinds would take a byte of each, and its place, from its caller: no plainer.
fn put_outputs(out: &mut [u8; PREPARED_BYTES], outputs: [OutputPoint; MOST_OUTPUTS])
    ensures { (s : Set) → s.outputs ≡ outputs → out.old ≡ up_to s 205 → out.new ≡ up_to s 301 }
{
    for i in 205..301 {
        let p = outputs[(i - 205) / 8];
        out[i] = p.name[(i - 205) % 8];
    }
}

// The constraints, behind the outputs.
fn put_constraints(out: &mut [u8; PREPARED_BYTES], constraints: [Constraint; MOST_CONSTRAINTS])
    ensures { (s : Set) → s.constraints ≡ constraints → out.old ≡ up_to s 301 → out.new ≡ up_to s 1837 }
{
    for i in 301..PREPARED_BYTES {
        let c = constraints[(i - 301) / 24];
        out[i] = constraint_byte(c, (i - 301) % 24);
    }
}

// The bytes of the set, in all places of what is lent: zeros first, and then part after part.
pub fn put_set(out: &mut [u8; PREPARED_BYTES], set: Set)
    ensures { out.new ≡ bytes_of set }
{
    let reads = set.reads;
    let outputs = set.outputs;
    let constraints = set.constraints;
    let zeros = [0u8; PREPARED_BYTES];
    *out = zeros;
    put_head(out, set.r, set.n, set.m, set.rest);
    put_reads(out, reads);
    put_outputs(out, outputs);
    put_constraints(out, constraints);
}
