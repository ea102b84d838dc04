// Loading: the counts, then read points, outputs, the rest word, constraints and the end, each field from the front of what is left.
ghost use Rattle.std.specs.Prelude.{◌≡◌, List, ℕ, ◌+◌, ◌≤◌, length, replicate, IfOk};
ghost use Rattle.header.specs.Fault.{number};
ghost use Rattle.loader.specs.declared.loader.LoadAnswer.TheVariants.{Refused as WasRefused};
ghost use Rattle.scan.specs.declared.set.ReadPoint.{ReadPoint};
ghost use Rattle.scan.specs.declared.set.OutputPoint.{OutputPoint};
ghost use Rattle.scan.specs.Set.{most_reads, most_outputs, zero_name, zero_set, with_reads, with_outputs};
ghost use Rattle.shape.specs.way.Names.{ReadNames};
ghost use Rattle.loader.specs.Load.{of_counts, counts_at, reads_from, outputs_from, after_rest, after_counts, answered, load_of};
ghost use Rattle.loader.specs.way.Load.{reached_by, end_told, end_place, rested_set, whole_set, loaded_with, loaded_told};

use super::rest::rest_at;
use super::step::{output_at, read_at};
use header::{Fault, Refusal, TAG_CONSTRAINT, TAG_COUNTS, TAG_END, front_at, is_wide};
use literal::literals_of;
use scan::{
    Constraint, MOST_CONSTRAINTS, MOST_OUTPUTS, MOST_READS, NAME_PLACES, OutputPoint, ReadPoint,
    Set, zero_set,
};
use shape::{are_counts_ok, is_sensor};

// A file was loaded; or the number of the refusal and the offset of the field's first byte. No Result: the theorem `refused_zero` names its refusal.
#[derive(Clone, Copy, Debug, PartialEq, Eq)]
pub enum LoadAnswer {
    Loaded,
    Refused { number: u8, offset: usize },
}

// The answer, and the set: with every field zero where the file is refused.
// No Result: the theorem `refused_zero` and the firmware speak of the set beside a refusal.
#[derive(Clone, Copy)]
pub struct Loaded {
    pub answer: LoadAnswer,
    pub set: Set,
}

// How many read points and outputs there are: no more than a set has.
#[derive(Clone, Copy)]
pub struct Counts {
    pub r: usize,
    pub n: usize,
    ghost in_range: { (r ≤ most_reads) × (n ≤ most_outputs) },
}

// The constraints, of which there are m.
#[derive(Clone, Copy)]
pub struct Constraints {
    pub m: usize,
    pub list: [Constraint; MOST_CONSTRAINTS],
}

// Each of the functions that follow gives what its fields hold, and the place of the next field.

fn counts_at(s: &[u8]) -> Result<(Counts, usize), Refusal>
    ensures { reached_by result (λ c. of_counts c.r c.n) ≡ counts_at s.now }
{
    let front = front_at(s, 0, TAG_COUNTS, 0)?;
    let r = s[front.at + 3] as usize;
    let n = s[front.at + 4] as usize;
    if !are_counts_ok(r, n, 0) {
        return Err(Refusal {
            fault: Fault::BadCounts,
            offset: front.at,
        });
    }
    Ok((Counts { r, n }, front.at + 3 + front.len))
}

// The read points from `at` on, as many as counted. Their names are put into the list that is lent.
fn reads_at<'a>(
    s: &'a [u8],
    at: usize,
    counts: Counts,
    names: &'a mut [[u8; NAME_PLACES]; MOST_READS],
) -> Result<([ReadPoint; MOST_READS], usize), Refusal>
    requires { names.old ≡ replicate most_reads zero_name }
    ensures { (reached_by result (with_reads (of_counts counts.r counts.n)) ≡ reads_from s.now counts.r 0 at (of_counts counts.r counts.n)) × IfOk result (λ x. ReadNames names.new x.0) }
{
    let outputs = [[0u8; NAME_PLACES]; MOST_OUTPUTS];
    let mut reads = [ReadPoint::ZERO; MOST_READS];
    let mut pasts = [false; MOST_READS];
    let mut next = at;
    for i in 0..counts.r {
        let (read, behind) = read_at(s, next, counts.n, &pasts, &*names, &outputs, i)?;
        let name = read.name;
        reads[i] = read;
        names[i] = name;
        pasts[i] = !is_sensor(read.kind);
        next = behind;
    }
    Ok((reads, next))
}

// The outputs from `at` on, as many as counted, behind read points of these names.
fn outputs_at<'a>(
    s: &'a [u8],
    at: usize,
    names: &'a [[u8; NAME_PLACES]; MOST_READS],
    counts: Counts,
) -> Result<([OutputPoint; MOST_OUTPUTS], usize), Refusal>
    ensures { (reads : List ReadPoint) → ReadNames names.now reads → reached_by result (with_outputs (with_reads (of_counts counts.r counts.n) reads)) ≡ outputs_from s.now counts.n 0 at (with_reads (of_counts counts.r counts.n) reads) }
{
    let mut outputs = [OutputPoint::ZERO; MOST_OUTPUTS];
    let mut own = [[0u8; NAME_PLACES]; MOST_OUTPUTS];
    let mut next = at;
    for j in 0..counts.n {
        let (name, behind) = output_at(s, next, names, counts.r, &own, j)?;
        outputs[j] = OutputPoint { name };
        own[j] = name;
        next = behind;
    }
    Ok((outputs, next))
}

// The place behind the end, or that bytes follow it.
fn end_at(s: &[u8], at: usize) -> Result<usize, Refusal>
    requires { at + 3 ≤ length s.now }
    ensures { end_told result ≡ end_place s.now at }
{
    if at + 3 < s.len() {
        return Err(Refusal {
            fault: Fault::BytesFollow,
            offset: at + 3,
        });
    }
    Ok(at + 3)
}

// Constraints from `at` up to the end, for a set of so many read points and outputs.
fn constraints_at(s: &[u8], at: usize, counts: Counts) -> Result<(Constraints, usize), Refusal>
    ensures { (rest : ℕ) (reads : List ReadPoint) (outputs : List OutputPoint) → reached_by result (λ c. whole_set counts.r counts.n c.m rest reads outputs c.list) ≡ after_rest s.now at (rested_set counts.r counts.n rest reads outputs) }
{
    let mut list = [Constraint::ZERO; MOST_CONSTRAINTS];
    let mut next = at;
    let mut m: usize = 0;
    // No `for`: the end's field ends the loop, and the header's test bounds m.
    loop {
        let front = front_at(s, next, TAG_CONSTRAINT, m)?;
        let offset = front.at;
        if front.tag == TAG_END {
            let end = end_at(s, offset)?;
            return Ok((Constraints { m, list }, end));
        }
        let wide = is_wide(front.tag);
        let behind = offset + 3 + front.len;
        match literals_of(&s[offset + 3..behind], wide, counts.r, counts.n) {
            Ok(made) => list[m] = made,
            Err(fault) => return Err(Refusal { fault, offset }),
        }
        m += 1;
        next = behind;
    }
}

// The set that the file holds behind its counts, put into the zero set that is lent, and the place behind its end; a refusal leaves the zero set.
fn set_behind(file: &[u8], at: usize, counts: Counts, set: &mut Set) -> Result<usize, Refusal>
    requires { set.old ≡ zero_set }
    ensures { loaded_told result set.new ≡ answered (after_counts file.now at (of_counts counts.r counts.n)) }
{
    let mut names = [[0u8; NAME_PLACES]; MOST_READS];
    let (reads, at) = reads_at(file, at, counts, &mut names)?;
    let (outputs, at) = outputs_at(file, at, &names, counts)?;
    let (rest, at) = rest_at(file, at, counts.n)?;
    let (Constraints { m, list }, end) = constraints_at(file, at, counts)?;
    *set = Set {
        r: counts.r,
        n: counts.n,
        m,
        rest,
        reads,
        outputs,
        constraints: list,
    };
    Ok(end)
}

// A refusal as it is answered: by its number.
fn answer_of(refusal: Refusal) -> LoadAnswer
    ensures { result ≡ WasRefused (number refusal.fault) refusal.offset }
{
    LoadAnswer::Refused {
        number: refusal.fault.number(),
        offset: refusal.offset,
    }
}

// What is answered of a file with these counts, whose set is put into the zero set that is lent.
fn load_into(file: &[u8], at: usize, counts: Counts, set: &mut Set) -> LoadAnswer
    requires { set.old ≡ zero_set }
    ensures { loaded_with result set.new ≡ answered (after_counts file.now at (of_counts counts.r counts.n)) }
{
    match set_behind(file, at, counts, set) {
        Ok(_) => LoadAnswer::Loaded,
        Err(refusal) => answer_of(refusal),
    }
}

// The same, beside the set. Not inlined, for speed: a call clears the places of the set and its parts at entry, and a file that is refused at its counts needs none of them.
#[inline(never)]
fn load_behind(file: &[u8], at: usize, counts: Counts) -> Loaded
    ensures { result ≡ answered (after_counts file.now at (of_counts counts.r counts.n)) }
{
    let mut set = zero_set();
    let answer = load_into(file, at, counts, &mut set);
    Loaded { answer, set }
}

// The set that the file holds; or the refusal, beside a set with every field zero.
pub fn load(file: &[u8]) -> Loaded
    ensures { result ≡ load_of file.now }
{
    let (counts, at) = match counts_at(file) {
        Ok(counted) => counted,
        Err(refusal) => {
            return Loaded {
                answer: answer_of(refusal),
                set: zero_set(),
            };
        }
    };
    load_behind(file, at, counts)
}
