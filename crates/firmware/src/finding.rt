// A point by its name.
ghost use Rattle.std.specs.Prelude.{◌≡◌};
ghost use Rattle.shape.specs.Told.{find_told};
ghost use Rattle.firmware.specs.Finding.{find_result, find_file};

use loader::load;
use shape::{FindError, Point, find, number_of};

// Whether the point is an output, 1, or a read point, 0; and its number.
// A flat struct with numbers, since C reads it.
#[repr(C)]
#[derive(Clone, Copy)]
pub struct FindResult {
    pub number: u8,
    pub output: u8,
    pub point: usize,
}

// What finding answers.
fn find_result(found: Result<Point, FindError>) -> FindResult
    ensures { result ≡ find_result (find_told found) }
{
    let number = number_of(found);
    match found {
        Ok(Point::Read(k)) => FindResult {
            number,
            output: 0,
            point: k,
        },
        Ok(Point::Output(k)) => FindResult {
            number,
            output: 1,
            point: k,
        },
        Err(_) => FindResult {
            number,
            output: 0,
            point: 0,
        },
    }
}

// The point of the file's set that has the name.
pub fn rsf_find<'a>(file: &'a [u8], name: &'a [u8]) -> FindResult
    ensures { result ≡ find_file file.now name.now }
{
    let loaded = load(file);
    find_result(find(loaded.set, name))
}
