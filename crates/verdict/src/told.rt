// Document 01's number of a verdict. A function, and no From: users call it by this name, and C takes the number.
ghost use Rattle.std.specs.Prelude.{◌≡◌, get_or};
ghost use Rattle.verdict.specs.Told.{verdict_told};

use super::verdict::Verdict;

// 0 where the set is accepted; else the refusal.
pub fn number_of(verdict: Verdict) -> u8
    ensures { result ≡ get_or (verdict_told verdict) 0 0 }
{
    match verdict {
        Verdict::Accepted => 0,
        Verdict::BadSet => 20,
        Verdict::ShortScratch => 21,
        Verdict::NoVector { word: _ } => 22,
        Verdict::Clash { word: _, output: _ } => 58,
        Verdict::NoEnd {
            word: _,
            request: _,
        } => 23,
    }
}
