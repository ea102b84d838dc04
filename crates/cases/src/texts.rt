// The canonical text of a set.
use super::answers::print_text_put;
use super::printing::{end_line, print_behind, print_sum};
use scan::Set;
use std::io;

// Room for the text of any set.
const MOST_TEXT: usize = 40000;

// The longest text that is printed whole.
const MOST_SHOWN: usize = 600;

// The length and the sum of a text, and the text itself if it is short.
fn print_shown(rt: &impl Print, text: &[u8]) -> io::Result<()> {
    print_behind(rt, b' ', text.len())?;
    print_sum(rt, b' ', text)?;
    end_line(rt)?;
    if text.len() <= MOST_SHOWN {
        rt.write_all(text)?;
    }
    Ok(())
}

fn print_front(rt: &impl Print, buf: &[u8], length: usize) -> io::Result<()> {
    if length <= buf.len() {
        print_shown(rt, &buf[0..length])?;
    }
    Ok(())
}

// The line of a set's text, and the text.
pub fn print_text(rt: &impl Print, set: Set) -> io::Result<()> {
    let mut buf = [0u8; MOST_TEXT];
    rt.write_all(b"TEXT")?;
    let put = text::put_text(set, &mut buf);
    match put {
        Ok(length) => print_front(rt, &buf, length),
        Err(_) => {
            print_text_put(rt, b'/', put)?;
            end_line(rt)
        }
    }
}

// The answer for any set and, where there is a text, the sum of the whole buffer.
pub fn print_text_of(rt: &impl Print, set: Set) -> io::Result<()> {
    let mut buf = [0u8; MOST_TEXT];
    let put = text::put_text(set, &mut buf);
    print_text_put(rt, b'/', put)?;
    if put.is_ok() {
        print_sum(rt, b':', &buf)?;
    }
    Ok(())
}
