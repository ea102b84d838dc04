// The functions that C calls: each is that of firmware, with the same promise.
#![tactic(auto)]

ghost use Rattle.std.specs.Prelude.{◌≡◌, length, drop};
ghost use Rattle.verdict.specs.Judge.{loose_bytes};
ghost use Rattle.prepared.specs.Put.{bytes_of};
ghost use Rattle.firmware.specs.Past.{set_in};
ghost use Rattle.firmware.specs.Loading.{load_file};
ghost use Rattle.firmware.specs.Judging.{judge_file};
ghost use Rattle.firmware.specs.Starting.{start_file};
ghost use Rattle.firmware.specs.Scanning.{scan_file};
ghost use Rattle.firmware.specs.Preparing.{scan_prepared};
ghost use Rattle.firmware.specs.Finding.{find_file};

use firmware::{FindResult, LoadResult, Past, ScanResult, StartResult, VerdictResult};
use prepared::PREPARED_BYTES;

// Whether the file loads, and the counts of its set.
#[unsafe(no_mangle)]
pub extern "C" fn rsf_load(file: &[u8]) -> LoadResult
    ensures { result ≡ load_file file.now }
{
    firmware::rsf_load(file)
}

// The verdict on the file's set, with scratch of one bit for each vector.
#[unsafe(no_mangle)]
pub extern "C" fn rsf_judge(file: &[u8], scratch: &mut [u8]) -> VerdictResult
    ensures value { result ≡ judge_file file.now (length scratch.old) }
    ensures scratch_unchanged { drop (loose_bytes (set_in file.now) (length scratch.old)) scratch.new ≡ drop (loose_bytes (set_in file.now) (length scratch.old)) scratch.old }
{
    firmware::rsf_judge(file, scratch)
}

// The verdict on the file's set, and the past for the first scan if it is accepted.
#[unsafe(no_mangle)]
pub extern "C" fn rsf_start(file: &[u8], scratch: &mut [u8]) -> StartResult
    ensures value { result ≡ start_file file.now (length scratch.old) }
    ensures scratch_unchanged { drop (loose_bytes (set_in file.now) (length scratch.old)) scratch.new ≡ drop (loose_bytes (set_in file.now) (length scratch.old)) scratch.old }
{
    firmware::rsf_start(file, scratch)
}

// One scan of the file's set with the past.
#[unsafe(no_mangle)]
pub extern "C" fn rsf_scan(file: &[u8], past: Past, sensor: u32, request: u16) -> ScanResult
    ensures { result ≡ scan_file file.now past sensor request }
{
    firmware::rsf_scan(file, past, sensor, request)
}

// Whether the file loads, and the counts of its set; the bytes of the set are put into all places of what is lent.
#[unsafe(no_mangle)]
pub extern "C" fn rsf_prepare(file: &[u8], prepared: &mut [u8; PREPARED_BYTES]) -> LoadResult
    ensures value { result ≡ load_file file.now }
    ensures prepared_after { prepared.new ≡ bytes_of (set_in file.now) }
{
    firmware::rsf_prepare(file, prepared)
}

// One scan, with the past, of the set that the bytes say.
#[unsafe(no_mangle)]
pub extern "C" fn rsf_scan_prepared(
    prepared: &[u8; PREPARED_BYTES],
    past: Past,
    sensor: u32,
    request: u16,
) -> ScanResult
    ensures { result ≡ scan_prepared prepared.now past sensor request }
{
    firmware::rsf_scan_prepared(prepared, past, sensor, request)
}

// The point of the file's set that has the name.
#[unsafe(no_mangle)]
pub extern "C" fn rsf_find<'a>(file: &'a [u8], name: &'a [u8]) -> FindResult
    ensures { result ≡ find_file file.now name.now }
{
    firmware::rsf_find(file, name)
}
