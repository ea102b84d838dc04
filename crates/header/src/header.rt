// A field's header: one-byte tag, two-byte length, high byte first.
ghost use Rattle.std.specs.Prelude.{◌≡◌, drop};
ghost use Rattle.header.specs.Header.{raw_of, fits_table, is_due, header_of};
ghost use Rattle.header.specs.way.Header.{header_told};

use super::numbers::{Fault, TAG_CONSTRAINT, TAG_END, TAG_WIDE};
use super::tag::is_constraint;
use choice::either;
use scan::MOST_CONSTRAINTS;

// Tags are below this.
const TAG_BOUND: usize = 8;

// By tag: the shortest body, the longest body, and what a body's length is a multiple of. A list for each, as the definitions have them: rows of a struct would be no plainer.
const SHORTEST: [u8; TAG_BOUND] = [0, 2, 3, 1, 2, 0, 2, 3];

const LONGEST: [u8; TAG_BOUND] = [0, 2, 10, 8, 48, 0, 2, 72];

const STEP: [u8; TAG_BOUND] = [1, 1, 1, 1, 2, 1, 1, 3];

// A field: its tag, and the length of its body.
#[derive(Clone, Copy, Debug, PartialEq, Eq)]
pub struct Field {
    pub tag: u8,
    pub len: usize,
}

fn wide(x: u8) -> usize
    ensures { result ≡ x }
{
    x as usize
}

// The field at `at`, whatever its tag; none where header or body runs past the end.
pub fn field_at(s: &[u8], at: usize) -> Option<Field>
    ensures { result ≡ raw_of (drop at s.now) }
{
    if s.len() < 3 {
        return None;
    }
    let last = s.len() - 3;
    if last < at {
        return None;
    }
    let tag = s[at];
    let high = wide(s[at + 1]);
    let low = wide(s[at + 2]);
    let len = high * 256 + low;
    if last - at < len {
        return None;
    }
    Some(Field { tag, len })
}

fn fits_table(tag: u8, len: usize) -> bool
    ensures { result ≡ fits_table tag len }
{
    let t = tag as usize;
    if TAG_BOUND <= t {
        return false;
    }
    let shortest = wide(SHORTEST[t]);
    let longest = wide(LONGEST[t]);
    let step = wide(STEP[t]);
    if len < shortest {
        return false;
    }
    if longest < len {
        return false;
    }
    len % step == 0
}

// Where constraints are due, both their tags are, and the end is due too.
fn is_due(due: u8, tag: u8) -> bool
    ensures { result ≡ is_due due tag }
{
    if tag == due {
        return true;
    }
    if due == TAG_CONSTRAINT {
        return either(tag == TAG_END, tag == TAG_WIDE);
    }
    false
}

// The field at `at`, where the tag `due` is due and m constraints have been loaded.
pub fn header_at(s: &[u8], at: usize, due: u8, m: usize) -> Result<Field, Fault>
    ensures { header_told result ≡ header_of (drop at s.now) due m }
{
    let field = field_at(s, at).ok_or(Fault::PastEnd)?;
    if !is_due(due, field.tag) {
        return Err(Fault::TagNotDue);
    }
    if is_constraint(field.tag) && MOST_CONSTRAINTS <= m {
        return Err(Fault::ManyConstraints);
    }
    if !fits_table(field.tag, field.len) {
        return Err(Fault::BadLength);
    }
    Ok(field)
}
