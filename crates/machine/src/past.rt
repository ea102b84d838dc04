// The read word of a scan: the sensor word, with past points filled from the state; past sensors from the sensor word itself until a scan is accepted.
ghost use Rattle.std.specs.Prelude.{◌≡◌, ◌≤◌};
ghost use Rattle.words.specs.Loop.{word};
ghost use Rattle.scan.specs.Set.{most_reads};
ghost use Rattle.machine.specs.Past.{sensor_before, reading, read_word};
ghost use Rattle.machine.specs.Machine.{is_past};

use choice::pick;
use scan::{Kind, Set};
use shape::is_sensor;

// What a read point of this kind, at bit k, reads.
fn reading_of(output: u16, sensor: u32, present: u32, k: usize, kind: Kind) -> bool
    ensures { result ≡ reading output sensor present k kind }
{
    match kind {
        Kind::Sensor => words::bit32(k, present),
        Kind::PastOutput(i) => words::bit16(i as usize, output),
        Kind::PastSensor(i) => words::bit32(i as usize, sensor),
    }
}

// The past sensor word that a scan reads: where no scan was accepted since the start, a past sensor reads as the sensor does now.
pub fn sensor_before(accepted: bool, sensor: u32, present: u32) -> u32
    ensures { result ≡ sensor_before accepted sensor present }
{
    if accepted { sensor } else { present }
}

// The read points that are no sensors, and the read word.
#[derive(Clone, Copy)]
pub struct ReadPoints {
    pub past: u32,
    pub word: u32,
}

// Which read points are no sensors, and the read word: the sensor word `present`, with past points filled from the past output word and the past sensor word.
pub fn read_points(s: &Set, output: u16, sensor: u32, present: u32) -> ReadPoints
    requires { s.now.r ≤ most_reads }
    ensures { (result.past ≡ word s.now.r (is_past s.now)) × (result.word ≡ read_word s.now output sensor present) }
{
    let mut past: u32 = 0;
    let mut word: u32 = 0;
    for k in 0..s.r {
        let kind = s.reads[k].kind;
        past |= pick(!is_sensor(kind), 1 << k, 0);
        word |= pick(reading_of(output, sensor, present, k, kind), 1 << k, 0);
    }
    ReadPoints { past, word }
}
