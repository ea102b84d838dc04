// The bodies of read points and outputs. The names of the points before are lent in lists of their own, and beside them which read points are pasts.
ghost use Rattle.std.specs.Prelude.{◌≡◌, ◌≤◌, min, length};
ghost use Rattle.scan.specs.Set.{most_reads, most_outputs};
ghost use Rattle.shape.specs.way.Names.{name_used};
ghost use Rattle.loader.specs.Load.{name_field, kind_of, read_field};
ghost use Rattle.loader.specs.way.Load.{not_past, given, name_given, read_given};

use header::Fault;
use scan::{Kind, MOST_OUTPUTS, MOST_READS, NAME_PLACES, ReadPoint};
use shape::{is_name_used, spell};

// The kind of read point i of a set of n outputs, told by two bytes.
fn kind_of(pasts: &[bool; MOST_READS], n: usize, i: usize, kind: u8, index: u8) -> Option<Kind>
    requires { i ≤ most_reads }
    ensures { result ≡ kind_of n (not_past pasts.now) i kind index }
{
    let k = index as usize;
    match kind {
        0 => (index == 0).then_some(Kind::Sensor),
        1 => (k < n).then_some(Kind::PastOutput(index)),
        2 => (k < i && !pasts[k]).then_some(Kind::PastSensor(index)),
        _ => None,
    }
}

// The name that bytes spell, where none of the first i read points and of the first j outputs has it.
pub fn name_of<'a>(
    bytes: &'a [u8],
    reads: &'a [[u8; NAME_PLACES]; MOST_READS],
    i: usize,
    outputs: &'a [[u8; NAME_PLACES]; MOST_OUTPUTS],
    j: usize,
) -> Result<[u8; NAME_PLACES], Fault>
    ensures { given result ≡ name_given (name_field (name_used reads.now (min i most_reads) outputs.now (min j most_outputs)) bytes.now) }
{
    let name = spell(bytes).ok_or(Fault::BadNameByte)?;
    if is_name_used(reads, i, outputs, j, name) {
        return Err(Fault::NameUsed);
    }
    Ok(name)
}

// Read point i of a body.
pub fn read_field<'a>(
    body: &'a [u8],
    n: usize,
    pasts: &'a [bool; MOST_READS],
    reads: &'a [[u8; NAME_PLACES]; MOST_READS],
    outputs: &'a [[u8; NAME_PLACES]; MOST_OUTPUTS],
    i: usize,
) -> Result<ReadPoint, Fault>
    requires { (2 ≤ length body.now) × (i ≤ most_reads) }
    ensures { given result ≡ read_given (read_field n (not_past pasts.now) (name_used reads.now (min i most_reads) outputs.now 0) i body.now) }
{
    let kind = kind_of(pasts, n, i, body[0], body[1]).ok_or(Fault::BadKind)?;
    let name = name_of(&body[2..], reads, i, outputs, 0)?;
    Ok(ReadPoint { kind, name })
}
