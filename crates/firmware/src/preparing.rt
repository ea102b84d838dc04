// A set in bytes that the caller keeps, so that a scan need not load the file again.
ghost use Rattle.std.specs.Prelude.{◌≡◌};
ghost use Rattle.prepared.specs.Put.{bytes_of};
ghost use Rattle.firmware.specs.Past.{set_in};
ghost use Rattle.firmware.specs.Loading.{load_file};
ghost use Rattle.firmware.specs.Preparing.{scan_prepared};

use super::loading::{LoadResult, load_result};
use super::past::{Past, with_past};
use super::scanning::{ScanResult, scanned_result};
use loader::load;
use machine::scan;
use prepared::{PREPARED_BYTES, put_set, set_said};

// Whether the file loads, and the counts of its set; the bytes of the set are put into all places of what is lent.
pub fn rsf_prepare(file: &[u8], prepared: &mut [u8; PREPARED_BYTES]) -> LoadResult
    ensures value { result ≡ load_file file.now }
    ensures prepared_after { prepared.new ≡ bytes_of (set_in file.now) }
{
    let loaded = load(file);
    let answer = loaded.answer;
    put_set(prepared, loaded.set);
    load_result(answer, loaded.set)
}

// One scan, with the past, of the set that the bytes say.
pub fn rsf_scan_prepared(
    prepared: &[u8; PREPARED_BYTES],
    past: Past,
    sensor: u32,
    request: u16,
) -> ScanResult
    ensures { result ≡ scan_prepared prepared.now past sensor request }
{
    scanned_result(scan(with_past(set_said(prepared), past), sensor, request))
}
