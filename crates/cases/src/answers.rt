// What operations answer, as items: document 01's number behind a space, and the values, each behind a mark.
use super::printing::{end_line, print_behind};
use machine::ScanAnswer;
use shape::{FindError, Point, PutError};
use std::io;
use verdict::Verdict;

pub fn print_written(
    rt: &impl Print,
    mark: u8,
    written: Result<usize, PutError>,
) -> io::Result<()> {
    print_behind(rt, b' ', writer::number_of(written) as usize)?;
    match written {
        Ok(length) => print_behind(rt, mark, length),
        Err(PutError::Short(needed)) => print_behind(rt, mark, needed),
        Err(PutError::BadSet) => Ok(()),
    }
}

pub fn print_text_put(rt: &impl Print, mark: u8, put: Result<usize, PutError>) -> io::Result<()> {
    print_behind(rt, b' ', text::number_of(put) as usize)?;
    match put {
        Ok(length) => print_behind(rt, mark, length),
        Err(PutError::Short(needed)) => print_behind(rt, mark, needed),
        Err(PutError::BadSet) => Ok(()),
    }
}

pub fn print_verdict(rt: &impl Print, mark: u8, v: Verdict) -> io::Result<()> {
    print_behind(rt, b' ', verdict::number_of(v) as usize)?;
    match v {
        Verdict::NoVector { word } => print_behind(rt, mark, word as usize),
        Verdict::Clash { word, output } => {
            print_behind(rt, mark, word as usize)?;
            print_behind(rt, mark, output as usize)
        }
        Verdict::NoEnd { word, request } => {
            print_behind(rt, mark, word as usize)?;
            print_behind(rt, mark, request as usize)
        }
        _ => Ok(()),
    }
}

// An item whose kind a byte before the number tells: ! for a refusal.
fn print_item(rt: &impl Print, kind: u8, number: usize) -> io::Result<()> {
    rt.write_all(b" ")?;
    print_behind(rt, kind, number)
}

pub fn print_scan(rt: &impl Print, answer: ScanAnswer) -> io::Result<()> {
    match answer {
        ScanAnswer::Sent { vector, passes } => {
            print_behind(rt, b' ', vector as usize)?;
            print_behind(rt, b'/', passes as usize)
        }
        _ => print_item(rt, b'!', machine::number_of(answer) as usize),
    }
}

pub fn print_found(rt: &impl Print, found: Result<Point, FindError>) -> io::Result<()> {
    match found {
        Ok(Point::Read(k)) => print_item(rt, b'R', k),
        Ok(Point::Output(k)) => print_item(rt, b'O', k),
        Err(_) => print_item(rt, b'!', shape::number_of(found) as usize),
    }
}

// The line of a file that is not loaded.
pub fn print_refused(rt: &impl Print, number: u8, offset: usize) -> io::Result<()> {
    rt.write_all(b"LOAD")?;
    print_behind(rt, b' ', number as usize)?;
    print_behind(rt, b' ', offset)?;
    end_line(rt)
}
