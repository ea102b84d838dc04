// Finding a point by its name.
ghost use Rattle.std.specs.Prelude.{◌≡◌, ◌≤◌};
ghost use Rattle.scan.specs.Set.{most_reads, most_outputs};
ghost use Rattle.shape.specs.Finding.{find_padded, find_of};

use super::names::{first_of, is_length_ok, names_of_outputs, names_of_reads, spell};
use super::shape::well_formed;
use scan::{NAME_PLACES, Set};

// A read point or an output, by its number.
#[derive(Clone, Copy, PartialEq, Eq, Debug)]
pub enum Point {
    Read(usize),
    Output(usize),
}

// Why there is none: a set that is not well formed, a name of no byte or of more than eight, or one that no point has.
#[derive(Clone, Copy, PartialEq, Eq, Debug)]
pub enum FindError {
    BadSet,
    BadLength,
    Unknown,
}

// The point whose name fills the eight places so.
fn find_padded(set: Set, name: [u8; NAME_PLACES]) -> Result<Point, FindError>
    requires { (set.r ≤ most_reads) × (set.n ≤ most_outputs) }
    ensures { result ≡ find_padded set name }
{
    let r = set.r;
    let n = set.n;
    let reads = set.reads;
    let outputs = set.outputs;
    let names = names_of_reads(reads);
    let k = first_of(&names, r, name);
    if k < r {
        return Ok(Point::Read(k));
    }
    let own = names_of_outputs(outputs);
    let j = first_of(&own, n, name);
    if j < n {
        return Ok(Point::Output(j));
    }
    Err(FindError::Unknown)
}

// The point of the name: a set that is not well formed is refused, then a length of 0 or above 8, then a name that no point has.
pub fn find(set: Set, name: &[u8]) -> Result<Point, FindError>
    ensures { result ≡ find_of set name.now }
{
    if !well_formed(set) {
        return Err(FindError::BadSet);
    }
    if !is_length_ok(name) {
        return Err(FindError::BadLength);
    }
    match spell(name) {
        Some(places) => find_padded(set, places),
        None => Err(FindError::Unknown),
    }
}
