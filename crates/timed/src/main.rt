// The program that is timed: it does one operation on a set file many times and prints a checksum of the answers. Standard input: a byte for the
// operation, a four-byte count of times, a two-byte length and the file; for scans then a two-byte count and the scans, of six bytes each.
#![tactic(auto)]

ghost use Rattle.std.specs.Prelude.{◌<◌};

use loader::LoadAnswer;
use machine::ScanAnswer;
use scan::{MOST_CONSTRAINTS, MOST_OUTPUTS, Set, State};
use shape::PutError;
use std::io;
use std::io::Read;
use verdict::Verdict;

// The operations.
#[derive(Clone, Copy, PartialEq, Eq)]
enum Operation {
    Judge,
    Scan,
    Load,
    Write,
    Text,
}

// No operation has the number.
#[derive(Clone, Copy, PartialEq, Eq)]
struct NoOperation;

impl TryFrom<u8> for Operation {
    type Error = NoOperation;

    fn try_from(number: u8) -> Result<Self, NoOperation> {
        match number {
            1 => Ok(Operation::Judge),
            2 => Ok(Operation::Scan),
            3 => Ok(Operation::Load),
            4 => Ok(Operation::Write),
            5 => Ok(Operation::Text),
            _ => Err(NoOperation),
        }
    }
}

// The longest file that is read, and room for any that is written.
const MOST_FILE: usize = 8192;

// The bytes of one scan: the sensor word and the request.
const SCAN_BYTES: usize = 6;

// Where a checksum begins: not at 0, which answers of 0 would leave as it is however many they are.
const SUM_BEGIN: u32 = 1;

// The checksum with one number more.
fn mix<T: Into<u32>>(sum: u32, x: T) -> u32 {
    ((sum as u64 * 31 + x.into() as u64) % 4294967291) as u32
}

fn mix_verdict(sum: u32, v: Verdict) -> u32 {
    let told = mix(sum, verdict::number_of(v));
    match v {
        Verdict::NoVector { word } => mix(told, word),
        Verdict::Clash { word, output } => mix(mix(told, word), output),
        Verdict::NoEnd { word, request } => mix(mix(told, word), request),
        _ => told,
    }
}

fn mix_scan(sum: u32, answer: ScanAnswer) -> u32 {
    match answer {
        ScanAnswer::Sent { vector, passes } => mix(mix(sum, vector), passes),
        _ => mix(sum, machine::number_of(answer)),
    }
}

fn mix_written(sum: u32, written: Result<usize, PutError>) -> u32 {
    mix(sum, writer::number_of(written))
}

// The checksum with the rest word and a place of each array of the set: other places at each turn, so that the whole set has to be made.
fn mix_set(sum: u32, set: Set, turn: u32) -> u32 {
    let k = turn as usize % MOST_OUTPUTS;
    let i = turn as usize % MOST_CONSTRAINTS;
    let read = set.reads[k];
    let output = set.outputs[k];
    let c = set.constraints[i];
    let a = read.name;
    let b = output.name;
    let reads = mix(mix(sum, c.read_plain), c.read_negated);
    let outs = mix(mix(reads, c.out_plain), c.out_negated);
    let rested = mix(outs, set.rest);
    mix(rested, u32::from_be_bytes([a[0], a[7], b[0], c.ranks[k]]))
}

// The checksum of so many turns. A turn is handed the checksum and how many turns are left with it, and returns the checksum with its answer.
fn sum_often<F: FnMut(u32, u32) -> u32>(times: u32, mut turn: F) -> u32
    requires { F.IsAlwaysCallable turn }
{
    let mut sum = SUM_BEGIN;
    for left in (1..=times).rev() {
        sum = turn(sum, left);
    }
    sum
}

// The list of scans, `times` times, each scan of the state that the one before returned.
fn scan_often(start: State, times: u32, calls: &[u8]) -> u32 {
    let mut state = start;
    sum_often(times, |before, _| {
        let mut sum = before;
        for call in calls.chunks_exact(SCAN_BYTES) {
            if let [a, b, c, d, high, low] = *call {
                let scanned = machine::scan(
                    state,
                    u32::from_be_bytes([a, b, c, d]),
                    u16::from_be_bytes([high, low]),
                );
                sum = mix_scan(sum, scanned.answer);
                state = scanned.state;
            }
        }
        sum
    })
}

// The next bytes of the input at the front of the buffer.
fn fill<R: Read>(input: &mut R, buf: &mut [u8], len: usize) {
    if len <= buf.len() {
        bytes_io::read_full(input, &mut buf[0..len]);
    }
}

// The scans that follow on the input, from the set's start.
fn scan_set<R: Read>(input: &mut R, set: Set, times: u32, scratch: &mut [u8]) -> u32 {
    let mut head = [0u8; 2];
    let mut calls = bytes_io::zeros::<4096>();
    bytes_io::read_full(&mut *input, &mut head);
    let len = u16::from_be_bytes([head[0], head[1]]) as usize * SCAN_BYTES;
    fill(input, &mut calls, len);
    let started = start::start(set, scratch);
    let state = started.state;
    if len <= 4096 {
        return scan_often(state, times, &calls[0..len]);
    }
    0
}

fn mix_loaded(sum: u32, file: &[u8], turn: u32) -> u32 {
    let loaded = loader::load(file);
    let answer = loaded.answer;
    let set = loaded.set;
    match answer {
        LoadAnswer::Loaded => mix_set(sum, set, turn),
        LoadAnswer::Refused { number, offset: _ } => mix(sum, number),
    }
}

fn mix_byte(sum: u32, buf: &[u8], at: usize) -> u32 {
    if at < buf.len() {
        mix(sum, buf[at])
    } else {
        sum
    }
}

// The set written over and over into one buffer, with room for the file of any set. A byte of it, another one at each turn, goes into the checksum.
fn write_often(set: Set, times: u32) -> u32 {
    let mut buf = [0u8; MOST_FILE];
    sum_often(times, |sum, left| {
        let told = mix_written(sum, writer::write(set, &mut buf));
        mix_byte(told, &buf, (left % 8192) as usize)
    })
}

// The set's text put over and over into one buffer, in the same way.
fn text_often(set: Set, times: u32) -> u32 {
    let mut buf = bytes_io::zeros::<65536>();
    sum_often(times, |sum, left| {
        let told = mix(sum, text::number_of(text::put_text(set, &mut buf)));
        mix_byte(told, &buf, (left % 4096) as usize)
    })
}

fn judge_often(set: Set, times: u32, scratch: &mut [u8]) -> u32 {
    sum_often(
        times,
        |sum, _| mix_verdict(sum, verdict::judge(set, &mut *scratch)),
    )
}

fn load_often(file: &[u8], times: u32) -> u32 {
    sum_often(times, |sum, left| mix_loaded(sum, file, left))
}

fn do_often<R: Read>(input: &mut R, operation: Operation, times: u32, file: &[u8]) -> u32 {
    let mut lent = bytes_io::zeros::<4096>();
    let loaded = loader::load(file);
    let set = loaded.set;
    match operation {
        Operation::Judge => judge_often(set, times, &mut lent),
        Operation::Scan => scan_set(input, set, times, &mut lent),
        Operation::Load => load_often(file, times),
        Operation::Write => write_often(set, times),
        Operation::Text => text_often(set, times),
    }
}

fn main(rt: HostRuntime) -> io::Result<()> {
    let mut input = rt.reader();
    let mut head = [0u8; 7];
    let mut file = [0u8; MOST_FILE];
    bytes_io::read_full(&mut input, &mut head);
    let times = u32::from_be_bytes([head[1], head[2], head[3], head[4]]);
    let len = u16::from_be_bytes([head[5], head[6]]) as usize;
    fill(&mut input, &mut file, len);
    if len <= MOST_FILE {
        let sum = match Operation::try_from(head[0]) {
            Ok(operation) => do_often(&mut input, operation, times, &file[0..len]),
            Err(NoOperation) => 0,
        };
        println!(rt; "{sum}")?;
    }
    Ok(())
}
