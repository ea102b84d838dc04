// The number of each answer. A function, and no From: users call it by this name.
ghost use Rattle.std.specs.Prelude.{◌≡◌, get_or};
ghost use Rattle.text.specs.Told.{text_told};

use shape::PutError;

// The number of an answer: 20 or 24, and 0 for one that is no refusal.
pub fn number_of(answer: Result<usize, PutError>) -> u8
    ensures { result ≡ get_or (text_told answer) 0 0 }
{
    match answer {
        Ok(_) => 0,
        Err(PutError::BadSet) => 20,
        Err(PutError::Short(_)) => 24,
    }
}
