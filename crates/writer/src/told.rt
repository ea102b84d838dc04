// Document 01's number of what writing answers. A function, and no From: users call it by this name.
ghost use Rattle.std.specs.Prelude.{◌≡◌, get_or};
ghost use Rattle.writer.specs.Told.{write_told};

use shape::PutError;

// 0 where the file was written; else the refusal.
pub fn number_of(written: Result<usize, PutError>) -> u8
    ensures { result ≡ get_or (write_told written) 0 0 }
{
    match written {
        Ok(_) => 0,
        Err(PutError::BadSet) => 20,
        Err(PutError::Short(_)) => 24,
    }
}
