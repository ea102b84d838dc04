// The line of a file: it is loaded, and the set is judged.
ghost use Rattle.std.specs.Prelude.{◌≡◌, length, drop};
ghost use Rattle.line.specs.Line.{verdict_line, line_of, loose_of};

use super::printer::Line;
use loader::{LoadAnswer, load};
use scan::Set;
use verdict::{Verdict, judge};

// The line of a verdict. A loaded set is well formed and has at most 4,096 vectors, so with 512 bytes of scratch the verdict
// never is a bad set or short scratch; these two are given as LOAD with their refusals 20 and 21, at offset 0.
fn verdict_line(set: Set, verdict: Verdict) -> Line
    ensures { result ≡ verdict_line set verdict }
{
    match verdict {
        Verdict::Accepted => Line::Accept {
            r: set.r,
            n: set.n,
            m: set.m,
        },
        Verdict::BadSet => Line::Load {
            number: 20,
            offset: 0,
        },
        Verdict::ShortScratch => Line::Load {
            number: 21,
            offset: 0,
        },
        Verdict::NoVector { word } => Line::NoVector { word },
        Verdict::Clash { word, output } => Line::Clash { word, output },
        Verdict::NoEnd { word, request } => Line::NoEnd { word, request },
    }
}

// The line of a file. The scratch is lent to the verdict, which leaves the content of its first bytes free; later bytes are untouched.
pub fn judge_file(file: &[u8], scratch: &mut [u8]) -> Line
    ensures value { result ≡ line_of file.now (length scratch.old) }
    ensures scratch_unchanged { drop (loose_of file.now (length scratch.old)) scratch.new ≡ drop (loose_of file.now (length scratch.old)) scratch.old }
{
    let loaded = load(file);
    let answer = loaded.answer;
    match answer {
        LoadAnswer::Loaded => verdict_line(loaded.set, judge(loaded.set, scratch)),
        LoadAnswer::Refused { number, offset } => Line::Load { number, offset },
    }
}
