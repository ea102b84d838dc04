// The test program: cases made by hand, and then for each case of a corpus on standard input what the operations answer, in lines. A case is a
// byte for its kind and the records of that kind.
#![tactic(auto)]

mod records; // reading the corpus
mod printing; // numbers, items and sums
mod answers; // what operations answer
mod names; // finding by name
mod states; // lists of scans
mod texts; // the canonical text
mod files; // a file, and the set that it holds
mod buffers; // lent buffers of many sizes
mod sets; // sets made by hand, from bytes
mod hand; // cases made by hand

use answers::print_refused;
use loader::LoadAnswer;
use records::record;
use scan::Set;
use std::io;
use std::io::Read;

// The kinds of cases: a file and scans, a file and a state, a file and names, a file and sizes of buffers; and a set with a state and names.
const FILE: u8 = b'F';

const STATE: u8 = b'S';

const NAMES: u8 = b'N';

const BUFFERS: u8 = b'B';

const SET: u8 = b'R';

// The most cases that are read.
const MOST_CASES: u32 = 1000000;

// What is answered of a loaded set, whose file this is, with the other record of the case.
fn print_loaded(rt: &impl Print, kind: u8, set: Set, file: &[u8], more: &[u8]) -> io::Result<()> {
    match kind {
        FILE => files::print_file(rt, set, file, more),
        STATE => states::print_state(rt, set, more),
        NAMES => names::print_names(rt, set, more),
        _ => buffers::print_buffers(rt, set, file, more),
    }
}

fn print_case_of(rt: &impl Print, kind: u8, file: &[u8], more: &[u8]) -> io::Result<()> {
    if kind == FILE {
        files::print_line(rt, file)?;
    }
    let loaded = loader::load(file);
    let answer = loaded.answer;
    match answer {
        LoadAnswer::Refused { number, offset } => print_refused(rt, number, offset),
        LoadAnswer::Loaded => print_loaded(rt, kind, loaded.set, file, more),
    }
}

// A case of a file and another record; whether both were there.
fn print_file_case<R: Read>(rt: &impl Print, input: &mut R, kind: u8) -> io::Result<bool> {
    let mut file = bytes_io::zeros::<65536>();
    let mut more = bytes_io::zeros::<4096>();
    let Some(file) = record(&mut *input, &mut file) else {
        return Ok(false);
    };
    let Some(more) = record(input, &mut more) else {
        return Ok(false);
    };
    print_case_of(rt, kind, file, more)?;
    Ok(true)
}

// A case of a set, words and names; whether all were there.
fn print_set_case<R: Read>(rt: &impl Print, input: &mut R) -> io::Result<bool> {
    let mut set = bytes_io::zeros::<4096>();
    let mut words = bytes_io::zeros::<4096>();
    let mut names = bytes_io::zeros::<4096>();
    let Some(set) = record(&mut *input, &mut set) else {
        return Ok(false);
    };
    let Some(words) = record(&mut *input, &mut words) else {
        return Ok(false);
    };
    let Some(names) = record(input, &mut names) else {
        return Ok(false);
    };
    if set.len() != sets::SET_BYTES {
        return Ok(false);
    }
    sets::print_set(rt, set, words, names)?;
    Ok(true)
}

// The next case; whether there was one.
fn print_case<R: Read>(rt: &impl Print, input: &mut R) -> io::Result<bool> {
    let mut kind = [0u8; 1];
    if bytes_io::read_full(&mut *input, &mut kind) < 1 {
        return Ok(false);
    }
    match kind[0] {
        FILE | STATE | NAMES | BUFFERS => print_file_case(rt, input, kind[0]),
        SET => print_set_case(rt, input),
        _ => Ok(false),
    }
}

fn main(rt: HostRuntime) -> io::Result<()> {
    let mut input = rt.reader();
    hand::print_all(&rt)?;
    for _ in 0..MOST_CASES {
        if !print_case(&rt, &mut input)? {
            break;
        }
    }
    Ok(())
}
