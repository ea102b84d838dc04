// Writing: the length of the file is counted first, and then each field is put into the lent buffer.
ghost use Rattle.std.specs.Prelude.{◌≡◌, true, ℕ, ◌+◌, ◌*◌, ◌≤◌, ◌<◌, length, get_or};
ghost use Rattle.scan.specs.Set.{most_reads, most_outputs, most_constraints, name_places, no_constraint};
ghost use Rattle.scan.specs.Shape.{well_formed};
ghost use Rattle.writer.specs.Write.{rest_field, write_of, write_answer, buffer_after};
ghost use Rattle.writer.specs.way.Write.{read_fields, output_fields, FewPoints, constraint_fields, put_at, Put};

use super::field::{
    body_length, put_constraint, put_counts, put_header, put_output, put_read, put_rest,
};
use header::TAG_END;
use scan::{Constraint, MOST_CONSTRAINTS, MOST_OUTPUTS, MOST_READS, OutputPoint, ReadPoint, Set};
use shape::{PutError, name_length, well_formed};

// The file of the set at the front of the buffer, later bytes untouched, and its length; on a refusal the buffer is untouched.
pub fn write(set: Set, buf: &mut [u8]) -> Result<usize, PutError>
    ensures value { result ≡ write_answer set (length buf.old) }
    ensures buf_after { buf.new ≡ buffer_after set buf.old }
{
    if !well_formed(set) {
        return Err(PutError::BadSet);
    }
    let needed = file_length(set);
    if buf.len() < needed {
        return Err(PutError::Short(needed));
    }
    put_file(buf, set);
    Ok(needed)
}

// The length of the file.
fn file_length(set: Set) -> usize
    requires { well_formed set ≡ true }
    ensures { result ≡ length (write_of set) }
{
    let reads = set.reads;
    let outputs = set.outputs;
    let constraints = set.constraints;
    8 + reads_length(reads, set.r)
        + outputs_length(outputs, set.n)
        + rest_length(set.rest)
        + constraints_length(constraints, set.m)
}

fn reads_length(reads: [ReadPoint; MOST_READS], r: usize) -> usize
    requires { r ≤ most_reads }
    ensures { (result ≡ length (read_fields reads r)) × (result ≤ most_reads * (5 + name_places)) }
{
    let mut len: usize = 0;
    for k in 0..r {
        len += 5 + name_length(reads[k].name);
    }
    len
}

// The same of the outputs, and so below: one function for both kinds would need a trait with the body of a field and its laws, and would be no plainer.
fn outputs_length(outputs: [OutputPoint; MOST_OUTPUTS], n: usize) -> usize
    requires { n ≤ most_outputs }
    ensures { (result ≡ length (output_fields outputs n)) × (result ≤ most_outputs * (3 + name_places)) }
{
    let mut len: usize = 0;
    for j in 0..n {
        len += 3 + name_length(outputs[j].name);
    }
    len
}

// The rest word has a field where it is not 0.
fn rest_length(rest: u16) -> usize
    ensures { (result ≡ length (rest_field rest)) × (result ≤ 5) }
{
    if rest == 0 { 0 } else { 5 }
}

fn constraints_length(constraints: [Constraint; MOST_CONSTRAINTS], m: usize) -> usize
    requires { (m ≤ most_constraints) × ((i : ℕ) → i < m → FewPoints (get_or constraints i no_constraint)) }
    ensures { (result ≡ length (constraint_fields constraints m)) × (result ≤ most_constraints * (3 + 3 * (most_reads + most_outputs))) }
{
    let mut len: usize = 0;
    for i in 0..m {
        len += 3 + body_length(constraints[i]);
    }
    len
}

// The fields of the read points, from `at` on; the place behind them.
fn put_reads(buf: &mut [u8], at: usize, reads: [ReadPoint; MOST_READS], r: usize) -> usize
    requires { (r ≤ most_reads) × (at + length (read_fields reads r) ≤ length buf.old) }
    ensures { Put buf.old at (read_fields reads r) buf.new result }
{
    let mut next = at;
    for k in 0..r {
        next = put_read(buf, next, reads[k]);
    }
    next
}

// The fields of the outputs.
fn put_outputs(buf: &mut [u8], at: usize, outputs: [OutputPoint; MOST_OUTPUTS], n: usize) -> usize
    requires { (n ≤ most_outputs) × (at + length (output_fields outputs n) ≤ length buf.old) }
    ensures { Put buf.old at (output_fields outputs n) buf.new result }
{
    let mut next = at;
    for j in 0..n {
        next = put_output(buf, next, outputs[j]);
    }
    next
}

// The fields of the constraints.
fn put_constraints(
    buf: &mut [u8],
    at: usize,
    constraints: [Constraint; MOST_CONSTRAINTS],
    m: usize,
) -> usize
    requires { (m ≤ most_constraints) × ((i : ℕ) → i < m → FewPoints (get_or constraints i no_constraint)) × (at + length (constraint_fields constraints m) ≤ length buf.old) }
    ensures { Put buf.old at (constraint_fields constraints m) buf.new result }
{
    let mut next = at;
    for i in 0..m {
        next = put_constraint(buf, next, constraints[i]);
    }
    next
}

// The whole file at the front of the buffer.
fn put_file(buf: &mut [u8], set: Set)
    requires { (well_formed set ≡ true) × (length (write_of set) ≤ length buf.old) }
    ensures { buf.new ≡ put_at buf.old 0 (write_of set) }
{
    let reads = set.reads;
    let outputs = set.outputs;
    let constraints = set.constraints;
    let reads_at = put_counts(buf, 0, set.r, set.n);
    let outputs_at = put_reads(buf, reads_at, reads, set.r);
    let rest_at = put_outputs(buf, outputs_at, outputs, set.n);
    let constraints_at = put_rest(buf, rest_at, set.rest);
    let end = put_constraints(buf, constraints_at, constraints, set.m);
    put_header(buf, end, TAG_END, 0);
}
