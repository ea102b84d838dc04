// The start: the verdict, and the past for the first scan.
ghost use Rattle.std.specs.Prelude.{◌≡◌, length, drop};
ghost use Rattle.verdict.specs.Judge.{loose_bytes};
ghost use Rattle.firmware.specs.Past.{set_in};
ghost use Rattle.firmware.specs.Starting.{start_result, start_file};

use super::judging::{VerdictResult, verdict_result};
use super::past::{Past, past_of};
use loader::load;
use start::{Started, start};

// The verdict, and the past for the first scan.
// A flat struct with numbers, since C reads it.
#[repr(C)]
#[derive(Clone, Copy)]
pub struct StartResult {
    pub verdict: VerdictResult,
    pub past: Past,
}

fn start_result(started: Started) -> StartResult
    ensures { result ≡ start_result started }
{
    let given = started.verdict;
    let verdict = verdict_result(given);
    let past = past_of(started.state);
    StartResult { verdict, past }
}

// The verdict on the file's set, and the past for the first scan if it is accepted.
pub fn rsf_start(file: &[u8], scratch: &mut [u8]) -> StartResult
    ensures value { result ≡ start_file file.now (length scratch.old) }
    ensures scratch_unchanged { drop (loose_bytes (set_in file.now) (length scratch.old)) scratch.new ≡ drop (loose_bytes (set_in file.now) (length scratch.old)) scratch.old }
{
    let loaded = load(file);
    start_result(start(loaded.set, scratch))
}
