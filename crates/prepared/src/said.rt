// The set that bytes say, well formed or not: any bytes say one.
ghost use Rattle.std.specs.Prelude.{◌≡◌, ◌<◌, ◌≤◌, ◌+◌};
ghost use Rattle.scan.specs.Set.{most_reads, most_outputs, most_constraints, zero_read, zero_output, zero_constraint};
ghost use Rattle.prepared.specs.Said.{kind_from, name_in, ranks_in, read_in, output_in, constraint_in, first_of, set_said};

use super::PREPARED_BYTES;
use scan::{
    Constraint, Kind, MOST_CONSTRAINTS, MOST_OUTPUTS, MOST_READS, NAME_PLACES, OutputPoint,
    ReadPoint, Set,
};

#[tactic(auto, unfolding(crate::specs::Said::kind_from))]
fn kind_from(tag: u8, index: u8) -> Kind
    ensures { result ≡ kind_from tag index }
{
    match tag {
        0 => Kind::Sensor,
        1 => Kind::PastOutput(index),
        _ => Kind::PastSensor(index),
    }
}

fn name_in(b: &[u8; PREPARED_BYTES], at: usize) -> [u8; NAME_PLACES]
    requires { at + 8 ≤ 1837 }
    ensures { result ≡ name_in b.now at }
{
    [
        b[at],
        b[at + 1],
        b[at + 2],
        b[at + 3],
        b[at + 4],
        b[at + 5],
        b[at + 6],
        b[at + 7],
    ]
}

fn ranks_in(b: &[u8; PREPARED_BYTES], at: usize) -> [u8; MOST_OUTPUTS]
    requires { at + 12 ≤ 1837 }
    ensures { result ≡ ranks_in b.now at }
{
    [
        b[at],
        b[at + 1],
        b[at + 2],
        b[at + 3],
        b[at + 4],
        b[at + 5],
        b[at + 6],
        b[at + 7],
        b[at + 8],
        b[at + 9],
        b[at + 10],
        b[at + 11],
    ]
}

fn read_in(b: &[u8; PREPARED_BYTES], k: usize) -> ReadPoint
    requires { k < 20 }
    ensures { result ≡ read_in b.now k }
{
    let at = 5 + 10 * k;
    let kind = kind_from(b[at], b[at + 1]);
    let name = name_in(b, at + 2);
    ReadPoint { kind, name }
}

fn output_in(b: &[u8; PREPARED_BYTES], j: usize) -> OutputPoint
    requires { j < 12 }
    ensures { result ≡ output_in b.now j }
{
    let name = name_in(b, 205 + 8 * j);
    OutputPoint { name }
}

fn constraint_in(b: &[u8; PREPARED_BYTES], i: usize) -> Constraint
    requires { i < 64 }
    ensures { result ≡ constraint_in b.now i }
{
    let at = 301 + 24 * i;
    let read_plain = u32::from_le_bytes([b[at], b[at + 1], b[at + 2], b[at + 3]]);
    let read_negated = u32::from_le_bytes([b[at + 4], b[at + 5], b[at + 6], b[at + 7]]);
    let out_plain = u16::from_le_bytes([b[at + 8], b[at + 9]]);
    let out_negated = u16::from_le_bytes([b[at + 10], b[at + 11]]);
    let ranks = ranks_in(b, at + 12);
    Constraint {
        read_plain,
        read_negated,
        out_plain,
        out_negated,
        ranks,
    }
}

// The first r read points, with zeros behind them.
fn reads_in(b: &[u8; PREPARED_BYTES], r: usize) -> [ReadPoint; MOST_READS]
    ensures { result ≡ first_of r most_reads zero_read (read_in b.now) }
{
    let mut reads = [ReadPoint::ZERO; MOST_READS];
    let end = r.min(MOST_READS);
    for k in 0..end {
        reads[k] = read_in(b, k);
    }
    reads
}

// The first n outputs, with zeros behind them. One function for the three kinds would take what is read, and the zero, from its caller: no plainer than the loop.
fn outputs_in(b: &[u8; PREPARED_BYTES], n: usize) -> [OutputPoint; MOST_OUTPUTS]
    ensures { result ≡ first_of n most_outputs zero_output (output_in b.now) }
{
    let mut outputs = [OutputPoint::ZERO; MOST_OUTPUTS];
    let end = n.min(MOST_OUTPUTS);
    for j in 0..end {
        outputs[j] = output_in(b, j);
    }
    outputs
}

// The first m constraints, with zeros behind them.
fn constraints_in(b: &[u8; PREPARED_BYTES], m: usize) -> [Constraint; MOST_CONSTRAINTS]
    ensures { result ≡ first_of m most_constraints zero_constraint (constraint_in b.now) }
{
    let mut constraints = [Constraint::ZERO; MOST_CONSTRAINTS];
    let end = m.min(MOST_CONSTRAINTS);
    for i in 0..end {
        constraints[i] = constraint_in(b, i);
    }
    constraints
}

// The set that the bytes say.
pub fn set_said(b: &[u8; PREPARED_BYTES]) -> Set
    ensures { result ≡ set_said b.now }
{
    let r = b[0] as usize;
    let n = b[1] as usize;
    let m = b[2] as usize;
    let rest = u16::from_le_bytes([b[3], b[4]]);
    let reads = reads_in(b, r);
    let outputs = outputs_in(b, n);
    let constraints = constraints_in(b, m);
    Set {
        r,
        n,
        m,
        rest,
        reads,
        outputs,
        constraints,
    }
}
