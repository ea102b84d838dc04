// Document 01's number of what loading answers. A function, and no From: users call it by this name, and C takes the number.
ghost use Rattle.std.specs.Prelude.{◌≡◌, get_or};
ghost use Rattle.loader.specs.Told.{load_told};

use super::loader::LoadAnswer;

// 0 where the file was loaded; else the refusal.
pub fn number_of(answer: LoadAnswer) -> u8
    ensures { result ≡ get_or (load_told answer) 0 0 }
{
    match answer {
        LoadAnswer::Loaded => 0,
        LoadAnswer::Refused { number, offset: _ } => number,
    }
}
