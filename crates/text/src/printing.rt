// The text of a set into a lent buffer. It is measured first, by putting it into a buffer of no use.
ghost use Rattle.std.specs.Prelude.{◌≡◌, true, length};
ghost use Rattle.scan.specs.Shape.{well_formed};
ghost use Rattle.text.specs.Text.{text_of, text_answer, buffer_after};
ghost use Rattle.text.specs.way.Place.{Within};

use super::page::Page;
use scan::Set;
use shape::{PutError, names_of_outputs, names_of_reads, well_formed};

// The text of the set at the front of the buffer, later bytes untouched, and its length; on a refusal the buffer is untouched.
pub fn put_text(set: Set, buf: &mut [u8]) -> Result<usize, PutError>
    ensures value { result ≡ text_answer set (length buf.old) }
    ensures buf_after { buf.new ≡ buffer_after set buf.old }
{
    if !well_formed(set) {
        return Err(PutError::BadSet);
    }
    let needed = text_length(set);
    if buf.len() < needed {
        return Err(PutError::Short(needed));
    }
    put_lines(buf, set);
    Ok(needed)
}

// The length of the text.
fn text_length(set: Set) -> usize
    requires { well_formed set ≡ true }
    ensures { result ≡ length (text_of set) }
{
    let mut none = [0u8; 1];
    put_lines(&mut none, set)
}

// All lines, as far as the buffer goes, and the place behind them.
fn put_lines(buf: &mut [u8], set: Set) -> usize
    requires { well_formed set ≡ true }
    ensures { Within buf.old 0 (text_of set) buf.new result }
{
    let outputs = set.outputs;
    let points = set.reads;
    let constraints = set.constraints;
    let read_names = names_of_reads(points);
    let output_names = names_of_outputs(outputs);
    let mut page = Page { buf, at: 0 };
    page.put_outputs(outputs, set.n);
    page.put_reads(points, set.r, &read_names, &output_names);
    page.put_rests(set.rest, &output_names);
    page.put_constraints(constraints, set.m, &read_names, &output_names);
    page.put_bytes(b"end\n");
    page.at
}
