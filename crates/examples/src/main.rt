// The test of the examples. The arguments are pairs of files: a set file, and its text. For each pair it prints the line that the verdict program has
// for the set file, and whether the text is what is shown of it.
#![tactic(auto)]

ghost use Rattle.bytes_io.specs.Counts.{IsPrefixLen};

use std::env::FillError;
use std::rt::{Env, Files};
use std::{fs, io};

// What the programs read of a set file.
const MOST_FILE: usize = 8192;

// The most pairs.
const MOST_PAIRS: usize = 64;

fn say(rt: &impl Print, bytes: &[u8]) -> io::Result<()> {
    rt.write_all(bytes)
}

// The file at the front of the buffer, and its length; 0 where it cannot be read.
fn read_file(rt: &impl Files, path: &[u8], buf: &mut [u8]) -> usize
    ensures { IsPrefixLen result buf.new }
{
    let Ok(path) = str::from_utf8(path) else {
        return 0;
    };
    match fs::open(rt, path) {
        Ok(mut file) => bytes_io::read_full(&mut file, buf),
        Err(_) => 0,
    }
}

// The bytes of the front of a buffer, if it has so many.
fn say_front(rt: &impl Print, buf: &[u8], len: usize) -> io::Result<()> {
    if len <= buf.len() {
        say(rt, &buf[0..len])?;
    }
    Ok(())
}

// The verdict program's line.
fn say_line(rt: &impl Print, file: &[u8]) -> io::Result<()> {
    let mut scratch = bytes_io::zeros::<4096>();
    let mut out = [0u8; 80];
    let told = line::judge_file(file, &mut scratch);
    let len = line::put_line(told, &mut out);
    say_front(rt, &out, len)
}

fn say_same(rt: &impl Print, shown: &[u8], len: usize, text: &[u8]) -> io::Result<()> {
    if len <= shown.len() && &shown[..len] == text {
        return say(rt, b" is what is shown of it\n");
    }
    say(rt, b" is not what is shown of it\n")
}

// What is shown of the file, and whether it is the text.
fn say_shown(rt: &impl Print, file: &[u8], text: &[u8]) -> io::Result<()> {
    let mut out = bytes_io::zeros::<65536>();
    let len = shown::show_file(file, &mut out);
    say_same(rt, &out, len, text)
}

fn say_pair(rt: &(impl Files + Print), set: &[u8], text: &[u8]) -> io::Result<()> {
    let mut file = [0u8; MOST_FILE];
    let mut own = bytes_io::zeros::<65536>();
    let n = read_file(rt, set, &mut file);
    let m = read_file(rt, text, &mut own);
    say(rt, set)?;
    say(rt, b": ")?;
    say_line(rt, &file[..n])?;
    say(rt, text)?;
    say_shown(rt, &file[..n], &own[..m])
}

// Argument number i at the front of the buffer, and its length; 0 where it is missing or longer than the buffer.
fn read_argument(rt: &impl Env, i: usize, buf: &mut [u8]) -> usize
    ensures { IsPrefixLen result buf.new }
{
    match rt.arg(i, buf) {
        Ok(n) => n,
        Err(_) => 0,
    }
}

// Whether there is an argument number i.
fn has_argument(rt: &impl Env, i: usize) -> bool {
    let mut none = [0u8; 0];
    !matches!(rt.arg(i, &mut none), Err(FillError::NotPresent))
}

// The pair of arguments from number i on.
fn say_arguments(rt: &(impl Files + Env + Print), i: usize) -> io::Result<()> {
    let mut set = bytes_io::zeros::<4096>();
    let mut text = bytes_io::zeros::<4096>();
    if i < MOST_PAIRS * 2 {
        let n = read_argument(rt, i, &mut set);
        let m = read_argument(rt, i + 1, &mut text);
        say_pair(rt, &set[..n], &text[..m])?;
    }
    Ok(())
}

fn main(rt: HostRuntime) -> io::Result<()> {
    for pair in 0..MOST_PAIRS {
        if has_argument(&rt, pair * 2 + 2) {
            say_arguments(&rt, pair * 2 + 1)?;
        }
    }
    Ok(())
}
