// When a set is well formed: every part up to the counts is right, and every place beyond them is zero.
ghost use Rattle.std.specs.Prelude.{◌≡◌, cond, ◌≤◌, ◌<◌};
ghost use Rattle.scan.specs.Set.{most_reads, most_outputs, most_constraints};
ghost use Rattle.words.specs.Loop.{every, all};
ghost use Rattle.shape.specs.way.Names.{ReadNames};
ghost use Rattle.scan.specs.Shape.{count_tests, is_sensor, read_zero, read_place, rank_ok, rank_zero, constraint_tests, constraint_zero, constraint_place, well_formed};
ghost use Rattle.shape.specs.way.Shape.{sensors_of, kind_by, read_by, read_place_by, output_by, output_place_by};

use super::names::{first_of, is_name, is_zero_name, names_of_outputs, names_of_reads};
use choice::{both, either, pick};
use scan::{
    Constraint, Kind, MOST_CONSTRAINTS, MOST_OUTPUTS, MOST_POINTS, MOST_READS, NAME_PLACES,
    OutputPoint, ReadPoint, Set,
};

// Whether the counts are in range.
pub fn are_counts_ok(r: usize, n: usize, m: usize) -> bool
    ensures { result ≡ every (count_tests r n m) }
{
    if r <= MOST_READS {
        if n <= MOST_OUTPUTS {
            return both(1 <= n, both(r + n <= MOST_POINTS, m <= MOST_CONSTRAINTS));
        }
    }
    false
}

pub fn is_sensor(kind: Kind) -> bool
    ensures { result ≡ is_sensor kind }
{
    match kind {
        Kind::Sensor => true,
        Kind::PastOutput(_) => false,
        Kind::PastSensor(_) => false,
    }
}

// The word of the sensors among the read points.
fn sensors_of(reads: [ReadPoint; MOST_READS]) -> u32
    ensures { result ≡ sensors_of reads }
{
    let mut w: u32 = 0;
    for k in 0..MOST_READS {
        w |= pick(is_sensor(reads[k].kind), 1u32 << k, 0);
    }
    w
}

// Whether read point k, of a set of n outputs, may have the kind.
fn is_kind_ok(sensors: u32, n: usize, k: usize, kind: Kind) -> bool
    ensures { result ≡ kind_by sensors n k kind }
{
    match kind {
        Kind::Sensor => true,
        Kind::PastOutput(i) => (i as usize) < n,
        Kind::PastSensor(i) => {
            let at = i as usize;
            both(at < k, words::bit32(at, sensors))
        }
    }
}

// Whether read point k is right, given the names of the read points and the word of the sensors.
fn is_read_ok(
    names: &[[u8; NAME_PLACES]; MOST_READS],
    sensors: u32,
    n: usize,
    k: usize,
    p: ReadPoint,
) -> bool
    requires { k < most_reads }
    ensures { result ≡ read_by names.now sensors n k p }
{
    let kind = p.kind;
    let name = p.name;
    both(
        is_kind_ok(sensors, n, k, kind),
        both(is_name(name), first_of(names, k, name) == k),
    )
}

fn is_read_zero(p: ReadPoint) -> bool
    ensures { result ≡ read_zero p }
{
    let kind = p.kind;
    let name = p.name;
    both(is_sensor(kind), is_zero_name(name))
}

fn is_read_place_ok(
    names: &[[u8; NAME_PLACES]; MOST_READS],
    sensors: u32,
    r: usize,
    n: usize,
    k: usize,
    p: ReadPoint,
) -> bool
    requires { k < most_reads }
    ensures { result ≡ read_place_by names.now sensors r n k p }
{
    if k < r {
        is_read_ok(names, sensors, n, k, p)
    } else {
        is_read_zero(p)
    }
}

fn are_reads_ok(
    names: &[[u8; NAME_PLACES]; MOST_READS],
    reads: [ReadPoint; MOST_READS],
    r: usize,
    n: usize,
) -> bool
    requires { ReadNames names.now reads }
    ensures { result ≡ all most_reads (read_place reads r n) }
{
    let sensors = sensors_of(reads);
    let mut ok = true;
    for k in 0..MOST_READS {
        ok = both(ok, is_read_place_ok(names, sensors, r, n, k, reads[k]));
    }
    ok
}

// Whether output j is right, given the names of the points.
fn is_output_ok<'a>(
    reads: &'a [[u8; NAME_PLACES]; MOST_READS],
    r: usize,
    outputs: &'a [[u8; NAME_PLACES]; MOST_OUTPUTS],
    j: usize,
) -> bool
    requires { (r ≤ most_reads) × (j < most_outputs) }
    ensures { result ≡ output_by reads.now r outputs.now j }
{
    let name = outputs[j];
    both(
        is_name(name),
        both(
            first_of(reads, r, name) == r,
            first_of(outputs, j, name) == j,
        ),
    )
}

// With its like for read points: what is asked of the two kinds differs, so that one function would only pass both tests in.
fn is_output_place_ok<'a>(
    reads: &'a [[u8; NAME_PLACES]; MOST_READS],
    r: usize,
    outputs: &'a [[u8; NAME_PLACES]; MOST_OUTPUTS],
    n: usize,
    j: usize,
) -> bool
    requires { (r ≤ most_reads) × (j < most_outputs) }
    ensures { result ≡ output_place_by reads.now r outputs.now n j }
{
    if j < n {
        is_output_ok(reads, r, outputs, j)
    } else {
        let name = outputs[j];
        is_zero_name(name)
    }
}

fn are_outputs_ok<'a>(
    reads: &'a [[u8; NAME_PLACES]; MOST_READS],
    r: usize,
    outputs: &'a [[u8; NAME_PLACES]; MOST_OUTPUTS],
    n: usize,
) -> bool
    requires { r ≤ most_reads }
    ensures { result ≡ all most_outputs (output_place_by reads.now r outputs.now n) }
{
    let mut ok = true;
    for j in 0..MOST_OUTPUTS {
        ok = both(ok, is_output_place_ok(reads, r, outputs, n, j));
    }
    ok
}

// Whether ranks stand only at outputs that the constraint names.
fn are_ranks_ok(c: Constraint) -> bool
    ensures { result ≡ all most_outputs (rank_ok c) }
{
    let named = c.out_plain | c.out_negated;
    let mut ok = true;
    for k in 0..MOST_OUTPUTS {
        ok = both(ok, either(words::bit16(k, named), c.ranks[k] == 0));
    }
    ok
}

// Whether the masks name r read points and n outputs at most, no point both ways, and an output.
fn is_constraint_ok(r: usize, n: usize, c: Constraint) -> bool
    ensures { result ≡ every (constraint_tests r n c) }
{
    let reads = both(
        words::fits32(c.read_plain, r),
        both(
            words::fits32(c.read_negated, r),
            c.read_plain & c.read_negated == 0,
        ),
    );
    let outs = both(
        words::fits16(c.out_plain, n),
        both(
            words::fits16(c.out_negated, n),
            c.out_plain & c.out_negated == 0,
        ),
    );
    let named = both(0 < c.out_plain | c.out_negated, are_ranks_ok(c));
    both(reads, both(outs, named))
}

// With no `==`, which leaves early: a scan would take longer.
fn are_ranks_zero(c: Constraint) -> bool
    ensures { result ≡ all most_outputs (rank_zero c) }
{
    let mut ok = true;
    for k in 0..MOST_OUTPUTS {
        ok = both(ok, c.ranks[k] == 0);
    }
    ok
}

fn is_constraint_zero(c: Constraint) -> bool
    ensures { result ≡ constraint_zero c }
{
    let reads = both(c.read_plain == 0, c.read_negated == 0);
    let outs = both(c.out_plain == 0, c.out_negated == 0);
    both(reads, both(outs, are_ranks_zero(c)))
}

fn is_constraint_place_ok(used: bool, r: usize, n: usize, c: Constraint) -> bool
    ensures { result ≡ cond used (every (constraint_tests r n c)) (constraint_zero c) }
{
    if used {
        is_constraint_ok(r, n, c)
    } else {
        is_constraint_zero(c)
    }
}

fn are_constraints_ok(s: Set) -> bool
    ensures { result ≡ all most_constraints (constraint_place s) }
{
    let r = s.r;
    let n = s.n;
    let m = s.m;
    let mut ok = true;
    for i in 0..MOST_CONSTRAINTS {
        ok = both(ok, is_constraint_place_ok(i < m, r, n, s.constraints[i]));
    }
    ok
}

// Whether the set is well formed.
pub fn well_formed(set: Set) -> bool
    ensures { result ≡ well_formed set }
{
    let r = set.r;
    let n = set.n;
    let m = set.m;
    if are_counts_ok(r, n, m) {
        // the constraints first: the set is then copied once less
        let fine = are_constraints_ok(set);
        let reads = set.reads;
        let outputs = set.outputs;
        let names = names_of_reads(reads);
        let own = names_of_outputs(outputs);
        return both(
            are_reads_ok(&names, reads, r, n),
            both(
                are_outputs_ok(&names, r, &own, n),
                both(fine, words::fits16(set.rest, n)),
            ),
        );
    }
    false
}
