// One scan.
ghost use Rattle.std.specs.Prelude.{◌≡◌};
ghost use Rattle.machine.specs.Told.{scan_told};
ghost use Rattle.firmware.specs.Scanning.{scan_result, scanned_result, scan_file};

use super::past::{Past, past_of, with_past};
use loader::load;
use machine::{ScanAnswer, Scanned, number_of, scan};

// The vector sent and the passes made, or the refusal; and the past for the next scan.
// A flat struct with numbers, since C reads it.
#[repr(C)]
#[derive(Clone, Copy)]
pub struct ScanResult {
    pub number: u8,
    pub vector: u16,
    pub passes: u16,
    pub past: Past,
}

// What a scan answers, with the past for the next one.
fn scan_result(answer: ScanAnswer, past: Past) -> ScanResult
    ensures { result ≡ scan_result (scan_told answer) past }
{
    let number = number_of(answer);
    if let ScanAnswer::Sent { vector, passes } = answer {
        return ScanResult {
            number,
            vector,
            passes,
            past,
        };
    }
    ScanResult {
        number,
        vector: 0,
        passes: 0,
        past,
    }
}

pub fn scanned_result(scanned: Scanned) -> ScanResult
    ensures { result ≡ scanned_result scanned }
{
    let answer = scanned.answer;
    scan_result(answer, past_of(scanned.state))
}

// One scan of the file's set with the past.
pub fn rsf_scan(file: &[u8], past: Past, sensor: u32, request: u16) -> ScanResult
    ensures { result ≡ scan_file file.now past sensor request }
{
    let loaded = load(file);
    scanned_result(scan(with_past(loaded.set, past), sensor, request))
}
