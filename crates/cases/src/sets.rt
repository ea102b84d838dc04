// Sets made by hand, from bytes: any counts, rest words, kinds, names, masks and ranks.
use super::answers::{print_verdict, print_written};
use super::names::print_names;
use super::printing::{end_line, print_sum};
use super::records::{behind, byte, four_of, two_of};
use super::states::print_state;
use super::texts::print_text_of;
use scan::{
    Constraint, Kind, MOST_CONSTRAINTS, MOST_OUTPUTS, MOST_READS, NAME_PLACES, OutputPoint,
    ReadPoint, Set,
};
use shape::PutError;
use std::{array, io};

// The bytes of a set, of a read point and of a constraint, and where the read points, the outputs and the constraints begin.
pub const SET_BYTES: usize = 1840;

const READ_BYTES: usize = 10;

const CONSTRAINT_BYTES: usize = 24;

const READS_AT: usize = 8;

const OUTPUTS_AT: usize = 208;

const CONSTRAINTS_AT: usize = 304;

fn name_of(bytes: &[u8]) -> [u8; NAME_PLACES] {
    [
        byte(bytes, 0),
        byte(bytes, 1),
        byte(bytes, 2),
        byte(bytes, 3),
        byte(bytes, 4),
        byte(bytes, 5),
        byte(bytes, 6),
        byte(bytes, 7),
    ]
}

fn kind_of(kind: u8, index: u8) -> Kind {
    match kind {
        1 => Kind::PastOutput(index),
        2 => Kind::PastSensor(index),
        _ => Kind::Sensor,
    }
}

fn read_point(bytes: &[u8]) -> ReadPoint {
    let kind = kind_of(byte(bytes, 0), byte(bytes, 1));
    let name = name_of(behind(bytes, 2));
    ReadPoint { kind, name }
}

fn output_point(bytes: &[u8]) -> OutputPoint {
    let name = name_of(bytes);
    OutputPoint { name }
}

fn ranks_of(bytes: &[u8]) -> [u8; MOST_OUTPUTS] {
    [
        byte(bytes, 0),
        byte(bytes, 1),
        byte(bytes, 2),
        byte(bytes, 3),
        byte(bytes, 4),
        byte(bytes, 5),
        byte(bytes, 6),
        byte(bytes, 7),
        byte(bytes, 8),
        byte(bytes, 9),
        byte(bytes, 10),
        byte(bytes, 11),
    ]
}

fn constraint(bytes: &[u8]) -> Constraint {
    let read_plain = four_of(bytes);
    let read_negated = four_of(behind(bytes, 4));
    let out_plain = two_of(behind(bytes, 8));
    let out_negated = two_of(behind(bytes, 10));
    let ranks = ranks_of(behind(bytes, 12));
    Constraint {
        read_plain,
        read_negated,
        out_plain,
        out_negated,
        ranks,
    }
}

fn reads_of(bytes: &[u8]) -> [ReadPoint; MOST_READS] {
    array::from_fn(|k| read_point(behind(bytes, k * READ_BYTES)))
}

fn outputs_of(bytes: &[u8]) -> [OutputPoint; MOST_OUTPUTS] {
    array::from_fn(|k| output_point(behind(bytes, k * NAME_PLACES)))
}

fn constraints_of(bytes: &[u8]) -> [Constraint; MOST_CONSTRAINTS] {
    array::from_fn(|i| constraint(behind(bytes, i * CONSTRAINT_BYTES)))
}

// The set that the bytes hold.
fn set_of(bytes: &[u8]) -> Set {
    let r = two_of(bytes) as usize;
    let n = two_of(behind(bytes, 2)) as usize;
    let m = two_of(behind(bytes, 4)) as usize;
    let rest = two_of(behind(bytes, 6));
    let reads = reads_of(behind(bytes, READS_AT));
    let outputs = outputs_of(behind(bytes, OUTPUTS_AT));
    let constraints = constraints_of(behind(bytes, CONSTRAINTS_AT));
    Set {
        r,
        n,
        m,
        rest,
        reads,
        outputs,
        constraints,
    }
}

// Writing's answer and, where the set has a file, the sum of the whole buffer, in which a file of more bytes leaves its zeros.
fn print_file_of(rt: &impl Print, set: Set) -> io::Result<()> {
    let mut buf = bytes_io::zeros::<4096>();
    let written = writer::write(set, &mut buf);
    print_written(rt, b'/', written)?;
    match written {
        Err(PutError::BadSet) => Ok(()),
        _ => print_sum(rt, b':', &buf),
    }
}

fn print_verdict_of(rt: &impl Print, set: Set) -> io::Result<()> {
    let mut scratch = bytes_io::zeros::<4096>();
    print_verdict(rt, b'/', verdict::judge(set, &mut scratch))
}

// What is answered of any set.
fn print_any(rt: &impl Print, set: Set, words: &[u8], names: &[u8]) -> io::Result<()> {
    rt.write_all(b"SET")?;
    print_file_of(rt, set)?;
    print_verdict_of(rt, set)?;
    print_text_of(rt, set)?;
    end_line(rt)?;
    print_names(rt, set, names)?;
    print_state(rt, set, words)
}

pub fn print_set(rt: &impl Print, bytes: &[u8], words: &[u8], names: &[u8]) -> io::Result<()> {
    print_any(rt, set_of(bytes), words, names)
}
