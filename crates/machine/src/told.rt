// Document 01's number of a scan's answer. A function, and no From: users call it by this name, and C takes the number.
ghost use Rattle.std.specs.Prelude.{◌≡◌, get_or};
ghost use Rattle.machine.specs.Told.{scan_told};

use super::machine::ScanAnswer;

// 0 where the scan sent a vector; else the refusal.
pub fn number_of(answer: ScanAnswer) -> u8
    ensures { result ≡ get_or (scan_told answer) 0 0 }
{
    match answer {
        ScanAnswer::Sent {
            vector: _,
            passes: _,
        } => 0,
        ScanAnswer::BadState => 30,
        ScanAnswer::BadSensor => 31,
        ScanAnswer::BadRequest => 32,
        ScanAnswer::Unsafe => 33,
    }
}
