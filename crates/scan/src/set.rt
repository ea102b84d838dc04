// What a set and a state are made of.
ghost use Rattle.std.specs.Prelude.{◌≡◌};
ghost use Rattle.scan.specs.Set.{zero_set};

// The most read points, outputs, read points and outputs together, and constraints; the byte places of a name.
pub const MOST_READS: usize = 20;

pub const MOST_OUTPUTS: usize = 12;

pub const MOST_POINTS: usize = 24;

pub const MOST_CONSTRAINTS: usize = 64;

pub const NAME_PLACES: usize = 8;

// What a read point reads; the number inside is an output's, or an earlier read point's.
#[derive(Clone, Copy)]
pub enum Kind {
    Sensor,
    PastOutput(u8),
    PastSensor(u8),
}

#[derive(Clone, Copy)]
pub struct ReadPoint {
    pub kind: Kind,
    pub name: [u8; NAME_PLACES],
}

impl ReadPoint {
    // A read point of zeros.
    pub const ZERO: ReadPoint = ReadPoint {
        kind: Kind::Sensor,
        name: [0; NAME_PLACES],
    };
}

#[derive(Clone, Copy)]
pub struct OutputPoint {
    pub name: [u8; NAME_PLACES],
}

impl OutputPoint {
    // An output of zeros.
    pub const ZERO: OutputPoint = OutputPoint {
        name: [0; NAME_PLACES],
    };
}

// A product of literals: masks of the points named plain and negated, bit k being point k, and the rank of each output named.
#[derive(Clone, Copy)]
pub struct Constraint {
    pub read_plain: u32,
    pub read_negated: u32,
    pub out_plain: u16,
    pub out_negated: u16,
    pub ranks: [u8; MOST_OUTPUTS],
}

impl Constraint {
    // A constraint of zeros.
    pub const ZERO: Constraint = Constraint {
        read_plain: 0,
        read_negated: 0,
        out_plain: 0,
        out_negated: 0,
        ranks: [0; MOST_OUTPUTS],
    };
}

// r read points, n outputs and m constraints; the rest word, whose bit k says that output k counts as on before the first scan. The places beyond the
// counts are zero. Arrays with counts beside them: a controller has no heap (a rule of the project).
#[derive(Clone, Copy)]
pub struct Set {
    pub r: usize,
    pub n: usize,
    pub m: usize,
    pub rest: u16,
    pub reads: [ReadPoint; MOST_READS],
    pub outputs: [OutputPoint; MOST_OUTPUTS],
    pub constraints: [Constraint; MOST_CONSTRAINTS],
}

// A set, with the vector sent and the sensor word of the scan before, and whether a scan was accepted since the start.
#[derive(Clone, Copy)]
pub struct State {
    pub set: Set,
    pub past_output: u16,
    pub past_sensor: u32,
    pub accepted: bool,
}

// The set with every field zero.
pub fn zero_set() -> Set
    ensures { result ≡ zero_set }
{
    Set {
        r: 0,
        n: 0,
        m: 0,
        rest: 0,
        reads: [ReadPoint::ZERO; MOST_READS],
        outputs: [OutputPoint::ZERO; MOST_OUTPUTS],
        constraints: [Constraint::ZERO; MOST_CONSTRAINTS],
    }
}
