// A file: the verdict program's line, and what the operations answer of the set that it holds.
ghost use Rattle.std.specs.Prelude.{◌≤◌};

use super::answers::{print_verdict, print_written};
use super::buffers::{MOST_SCRATCH, print_scratch};
use super::names::print_own_names;
use super::printing::{end_line, print_behind};
use super::states::print_list;
use super::texts::print_text;
use line::Line;
use scan::Set;
use start::Started;
use std::io;
use verdict::Verdict;

// What the verdict program reads of a file.
const MOST_JUDGED: usize = 8192;

// Room for any file that is written.
const MOST_FILE: usize = 8192;

// The verdict program's line of a file.
pub fn line_of(file: &[u8]) -> Line {
    let mut scratch = bytes_io::zeros::<4096>();
    let n = file.len().min(MOST_JUDGED);
    line::judge_file(&file[0..n], &mut scratch)
}

pub fn print_line(rt: &impl Print, file: &[u8]) -> io::Result<()> {
    let mut out = [0u8; 80];
    rt.write_all(b"JUDGE ")?;
    let len = line::put_line(line_of(file), &mut out);
    if len <= 80 {
        rt.write_all(&out[0..len])?;
    }
    Ok(())
}

// Whether the file, written into a buffer with this length, is the one that was loaded.
fn print_same(rt: &impl Print, buf: &[u8], length: usize, file: &[u8]) -> io::Result<()> {
    print_behind(rt, b' ', length)?;
    if length <= buf.len() && &buf[..length] == file {
        return rt.write_all(b" same\n");
    }
    rt.write_all(b" differs\n")
}

fn print_rewritten(rt: &impl Print, set: Set, file: &[u8]) -> io::Result<()> {
    let mut buf = [0u8; MOST_FILE];
    rt.write_all(b"WRITE")?;
    let written = writer::write(set, &mut buf);
    match written {
        Ok(length) => print_same(rt, &buf, length, file),
        Err(_) => {
            print_written(rt, b'/', written)?;
            end_line(rt)
        }
    }
}

// The line of a set that the start rejects.
fn print_rejected(rt: &impl Print, v: Verdict) -> io::Result<()> {
    match v {
        Verdict::NoVector { word } => {
            rt.write_all(b"NOVECTOR")?;
            print_behind(rt, b' ', word as usize)?;
        }
        Verdict::Clash { word, output } => {
            rt.write_all(b"CLASH")?;
            print_behind(rt, b' ', word as usize)?;
            print_behind(rt, b' ', output as usize)?;
        }
        Verdict::NoEnd { word, request } => {
            rt.write_all(b"NOEND")?;
            print_behind(rt, b' ', word as usize)?;
            print_behind(rt, b' ', request as usize)?;
        }
        _ => {
            rt.write_all(b"START")?;
            print_verdict(rt, b'/', v)?;
        }
    }
    end_line(rt)
}

// The start with just the scratch that the verdict needs.
fn start_exact(set: Set) -> Started {
    let mut scratch = [0u8; MOST_SCRATCH];
    let bytes = MOST_SCRATCH.min(verdict::scratch_bytes(set.n));
    start::start(set, &mut scratch[0..bytes])
}

// The verdict of the start and, if the set is accepted, the scans.
fn print_started(rt: &impl Print, set: Set, calls: &[u8]) -> io::Result<()> {
    let started = start_exact(set);
    let v = started.verdict;
    match v {
        Verdict::Accepted => {
            rt.write_all(b"ACCEPT\nSCANS")?;
            print_list(rt, started.state, calls)
        }
        _ => print_rejected(rt, v),
    }
}

// What is answered of a loaded set, whose file this is.
pub fn print_file(rt: &impl Print, set: Set, file: &[u8], calls: &[u8]) -> io::Result<()> {
    rt.write_all(b"LOADED")?;
    print_behind(rt, b' ', set.r)?;
    print_behind(rt, b' ', set.n)?;
    print_behind(rt, b' ', set.m)?;
    end_line(rt)?;
    print_rewritten(rt, set, file)?;
    print_own_names(rt, set)?;
    print_text(rt, set)?;
    print_scratch(rt, set)?;
    print_started(rt, set, calls)
}
