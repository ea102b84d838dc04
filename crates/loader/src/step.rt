// The field of a read point or an output, from its header to what its body gives and the place behind it.
ghost use Rattle.std.specs.Prelude.{◌≡◌, ◌≤◌, min, drop};
ghost use Rattle.scan.specs.Set.{most_reads, most_outputs};
ghost use Rattle.header.specs.Header.{header_of};
ghost use Rattle.shape.specs.way.Names.{name_used};
ghost use Rattle.loader.specs.Load.{name_field, read_field};
ghost use Rattle.loader.specs.way.Load.{not_past, numbered, name_given, read_given, step_by};

use super::point::{name_of, read_field};
use header::{Refusal, TAG_OUTPUT, TAG_READ, front_at};
use scan::{MOST_OUTPUTS, MOST_READS, NAME_PLACES, ReadPoint};

// Read point i at `at`, of a set of n outputs.
pub fn read_at<'a>(
    s: &'a [u8],
    at: usize,
    n: usize,
    pasts: &'a [bool; MOST_READS],
    reads: &'a [[u8; NAME_PLACES]; MOST_READS],
    outputs: &'a [[u8; NAME_PLACES]; MOST_OUTPUTS],
    i: usize,
) -> Result<(ReadPoint, usize), Refusal>
    requires { i ≤ most_reads }
    ensures { numbered result ≡ step_by s.now at (λ body. read_given (read_field n (not_past pasts.now) (name_used reads.now (min i most_reads) outputs.now 0) i body)) (header_of (drop at s.now) 2 0) }
{
    let front = front_at(s, at, TAG_READ, 0)?;
    let offset = front.at;
    let behind = offset + 3 + front.len;
    match read_field(&s[offset + 3..behind], n, pasts, reads, outputs, i) {
        Ok(read) => Ok((read, behind)),
        Err(fault) => Err(Refusal { fault, offset }),
    }
}

// Output j at `at`, behind r read points. One function for both would take the tag, and what reads the body, from its caller: no plainer.
pub fn output_at<'a>(
    s: &'a [u8],
    at: usize,
    reads: &'a [[u8; NAME_PLACES]; MOST_READS],
    r: usize,
    outputs: &'a [[u8; NAME_PLACES]; MOST_OUTPUTS],
    j: usize,
) -> Result<([u8; NAME_PLACES], usize), Refusal>
    ensures { numbered result ≡ step_by s.now at (λ body. name_given (name_field (name_used reads.now (min r most_reads) outputs.now (min j most_outputs)) body)) (header_of (drop at s.now) 3 0) }
{
    let front = front_at(s, at, TAG_OUTPUT, 0)?;
    let offset = front.at;
    let behind = offset + 3 + front.len;
    match name_of(&s[offset + 3..behind], reads, r, outputs, j) {
        Ok(name) => Ok((name, behind)),
        Err(fault) => Err(Refusal { fault, offset }),
    }
}
