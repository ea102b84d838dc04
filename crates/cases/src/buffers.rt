// Operations with lent buffers of many sizes: the answers, and what is left of the bytes that are lent and of those behind them.
use super::answers::{print_text_put, print_verdict, print_written};
use super::files::line_of;
use super::printing::{end_line, print_accepted, print_behind, print_sum};
use super::records::{behind, two_of};
use line::Line;
use scan::Set;
use std::io;
use verdict::Verdict;

// What the bytes hold before a call.
const FILL: u8 = 0xA5;

// The most bytes that are lent, and how many lie behind those that are.
const MOST_SIZE: usize = 40000;

const BEHIND: usize = 16;

const ARENA: usize = 40016;

// The most bytes of scratch that a verdict needs.
pub const MOST_SCRATCH: usize = 512;

// The bytes of a size in a record.
const SIZE_BYTES: usize = 2;

// The operations that are lent a buffer.
#[derive(Clone, Copy)]
enum Operation {
    Write,
    Judge,
    Start,
    Line,
    Text,
}

// What a call leaves: how many of the first bytes may have any content, and the outputs and the mark of the state that it returns.
#[derive(Clone, Copy)]
struct Left {
    free: usize,
    outputs: usize,
    accepted: bool,
}

// With nothing free, and no state.
fn exact() -> Left {
    Left {
        free: 0,
        outputs: 0,
        accepted: false,
    }
}

// The first bytes of scratch whose content a verdict leaves free, for a set of n outputs.
fn free_scratch(n: usize, v: Verdict) -> usize {
    match v {
        Verdict::ShortScratch => 0,
        _ => verdict::scratch_bytes(n),
    }
}

fn lend_write(rt: &impl Print, set: Set, buf: &mut [u8]) -> io::Result<Left> {
    let written = writer::write(set, buf);
    print_written(rt, b'/', written)?;
    Ok(exact())
}

fn lend_judge(rt: &impl Print, set: Set, scratch: &mut [u8]) -> io::Result<Left> {
    let v = verdict::judge(set, scratch);
    print_verdict(rt, b'/', v)?;
    let free = free_scratch(set.n, v);
    Ok(Left {
        free,
        outputs: 0,
        accepted: false,
    })
}

fn lend_start(rt: &impl Print, set: Set, scratch: &mut [u8]) -> io::Result<Left> {
    let started = start::start(set, scratch);
    let v = started.verdict;
    print_verdict(rt, b'/', v)?;
    let free = free_scratch(set.n, v);
    let outputs = started.state.set.n;
    let accepted = started.state.accepted;
    Ok(Left {
        free,
        outputs,
        accepted,
    })
}

fn lend_line(rt: &impl Print, told: Line, buf: &mut [u8]) -> io::Result<Left> {
    print_behind(rt, b' ', line::put_line(told, buf))?;
    Ok(exact())
}

fn lend_text(rt: &impl Print, set: Set, buf: &mut [u8]) -> io::Result<Left> {
    let put = text::put_text(set, buf);
    print_text_put(rt, b'/', put)?;
    Ok(exact())
}

fn lend(
    rt: &impl Print,
    operation: Operation,
    set: Set,
    told: Line,
    buf: &mut [u8],
) -> io::Result<Left> {
    match operation {
        Operation::Write => lend_write(rt, set, buf),
        Operation::Judge => lend_judge(rt, set, buf),
        Operation::Start => lend_start(rt, set, buf),
        Operation::Line => lend_line(rt, told, buf),
        Operation::Text => lend_text(rt, set, buf),
    }
}

// The operation with the first `len` bytes of the arena: the answer, and the sum of the bytes whose content is told.
fn print_lent(
    rt: &impl Print,
    operation: Operation,
    set: Set,
    told: Line,
    arena: &mut [u8],
    len: usize,
) -> io::Result<()> {
    if len <= arena.len() {
        let left = lend(rt, operation, set, told, &mut arena[0..len])?;
        print_sum(rt, b':', behind(&*arena, left.free))?;
        if let Operation::Start = operation {
            print_behind(rt, b'=', left.outputs)?;
            print_accepted(rt, b'/', left.accepted)?;
        }
    }
    Ok(())
}

// The operation with so many bytes, 16 more behind them; more than the most have no item.
fn print_size(
    rt: &impl Print,
    operation: Operation,
    set: Set,
    told: Line,
    len: usize,
) -> io::Result<()> {
    let mut arena = [FILL; ARENA];
    if len <= MOST_SIZE {
        print_lent(rt, operation, set, told, &mut arena[0..len + BEHIND], len)?;
    }
    Ok(())
}

// The operation with each size of a sizes record.
fn print_sizes(
    rt: &impl Print,
    operation: Operation,
    set: Set,
    told: Line,
    sizes: &[u8],
) -> io::Result<()> {
    for size in sizes.chunks_exact(SIZE_BYTES) {
        print_size(rt, operation, set, told, two_of(size) as usize)?;
    }
    end_line(rt)
}

// The verdict with the first `len` bytes of the arena as scratch, and the sum of the bytes whose content is told.
fn print_judged_in(rt: &impl Print, set: Set, arena: &mut [u8], len: usize) -> io::Result<()> {
    if len <= arena.len() {
        let left = lend_judge(rt, set, &mut arena[0..len])?;
        print_sum(rt, b':', behind(&*arena, left.free))?;
    }
    Ok(())
}

// The verdict with so many bytes of scratch, 16 more behind them.
fn print_judged_with(rt: &impl Print, set: Set, len: usize) -> io::Result<()> {
    let mut arena = [FILL; MOST_SCRATCH + BEHIND];
    if len <= MOST_SCRATCH {
        print_judged_in(rt, set, &mut arena[0..len + BEHIND], len)?;
    }
    Ok(())
}

// The bytes of scratch that the verdict on a set needs; the verdict with just as many, and with one less.
pub fn print_scratch(rt: &impl Print, set: Set) -> io::Result<()> {
    let bytes = verdict::scratch_bytes(set.n);
    rt.write_all(b"SCRATCH")?;
    print_behind(rt, b' ', bytes)?;
    print_judged_with(rt, set, bytes)?;
    if 0 < bytes {
        print_judged_with(rt, set, bytes - 1)?;
    }
    end_line(rt)
}

// Every operation of a loaded set, whose file this is, with each size.
pub fn print_buffers(rt: &impl Print, set: Set, file: &[u8], sizes: &[u8]) -> io::Result<()> {
    let told = line_of(file);
    rt.write_all(b"WRITES")?;
    print_sizes(rt, Operation::Write, set, told, sizes)?;
    rt.write_all(b"JUDGES")?;
    print_sizes(rt, Operation::Judge, set, told, sizes)?;
    rt.write_all(b"STARTS")?;
    print_sizes(rt, Operation::Start, set, told, sizes)?;
    rt.write_all(b"LINES")?;
    print_sizes(rt, Operation::Line, set, told, sizes)?;
    rt.write_all(b"TEXTS")?;
    print_sizes(rt, Operation::Text, set, told, sizes)
}
