// Document 01's number of what finding answers. A function, and no From: users call it by this name, and C takes the number.
ghost use Rattle.std.specs.Prelude.{◌≡◌, get_or};
ghost use Rattle.shape.specs.Told.{find_told};

use super::finding::{FindError, Point};

// 0 where a point was found; else the refusal.
pub fn number_of(found: Result<Point, FindError>) -> u8
    ensures { result ≡ get_or (find_told found) 0 0 }
{
    match found {
        Ok(_) => 0,
        Err(FindError::BadSet) => 20,
        Err(FindError::BadLength) => 40,
        Err(FindError::Unknown) => 41,
    }
}
