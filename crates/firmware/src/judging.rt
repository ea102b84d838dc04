// The verdict.
ghost use Rattle.std.specs.Prelude.{◌≡◌, length, drop};
ghost use Rattle.verdict.specs.Judge.{loose_bytes};
ghost use Rattle.verdict.specs.Told.{verdict_told};
ghost use Rattle.firmware.specs.Past.{set_in};
ghost use Rattle.firmware.specs.Judging.{verdict_result, judge_file};

use loader::load;
use verdict::{Verdict, judge, number_of};

// The verdict: with 22, 23 and 58 the read word, with 23 the request, with 58 the output that is forced both ways.
// A flat struct with numbers, since C reads it.
#[repr(C)]
#[derive(Clone, Copy)]
pub struct VerdictResult {
    pub number: u8,
    pub output: u8,
    pub request: u16,
    pub word: u32,
}

// What the verdict answers. An output's number has no more than eight bits.
pub fn verdict_result(verdict: Verdict) -> VerdictResult
    ensures { result ≡ verdict_result (verdict_told verdict) }
{
    let number = number_of(verdict);
    let mut output: u8 = 0;
    let mut request: u16 = 0;
    let mut word: u32 = 0;
    match verdict {
        Verdict::NoVector { word: w } => {
            word = w;
        }
        Verdict::Clash { word: w, output: k } => {
            word = w;
            output = (k % 256) as u8;
        }
        Verdict::NoEnd {
            word: w,
            request: g,
        } => {
            word = w;
            request = g;
        }
        _ => {}
    }
    VerdictResult {
        number,
        output,
        request,
        word,
    }
}

// The verdict on the file's set, with scratch of one bit for each vector.
pub fn rsf_judge(file: &[u8], scratch: &mut [u8]) -> VerdictResult
    ensures value { result ≡ judge_file file.now (length scratch.old) }
    ensures scratch_unchanged { drop (loose_bytes (set_in file.now) (length scratch.old)) scratch.new ≡ drop (loose_bytes (set_in file.now) (length scratch.old)) scratch.old }
{
    let loaded = load(file);
    verdict_result(judge(loaded.set, scratch))
}
