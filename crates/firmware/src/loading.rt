// Whether a file loads.
ghost use Rattle.std.specs.Prelude.{◌≡◌};
ghost use Rattle.loader.specs.Told.{load_told};
ghost use Rattle.firmware.specs.Loading.{load_result, load_file};

use loader::{LoadAnswer, load, number_of};
use scan::Set;

// The counts of the file's set; or the refusal of the file, with the offset of the field's first byte.
// A flat struct with numbers, since C reads it.
#[repr(C)]
#[derive(Clone, Copy)]
pub struct LoadResult {
    pub number: u8,
    pub r: u8,
    pub n: u8,
    pub m: u8,
    pub offset: usize,
}

// What loading answers. The counts of a loaded set are below 256; a refusal carries the zero set, whose counts are 0.
pub fn load_result(answer: LoadAnswer, set: Set) -> LoadResult
    ensures { result ≡ load_result (load_told answer) set }
{
    let number = number_of(answer);
    let r = (set.r % 256) as u8;
    let n = (set.n % 256) as u8;
    let m = (set.m % 256) as u8;
    match answer {
        LoadAnswer::Loaded => LoadResult {
            number,
            r,
            n,
            m,
            offset: 0,
        },
        LoadAnswer::Refused { number: _, offset } => LoadResult {
            number,
            r,
            n,
            m,
            offset,
        },
    }
}

// Whether the file loads, and the counts of its set.
pub fn rsf_load(file: &[u8]) -> LoadResult
    ensures { result ≡ load_file file.now }
{
    let loaded = load(file);
    let answer = loaded.answer;
    load_result(answer, loaded.set)
}
