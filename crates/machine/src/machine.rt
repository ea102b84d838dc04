// The scan machine: one scan of a state.
ghost use Rattle.std.specs.Prelude.{◌≡◌, true, ◌&&◌, ◌^◌, eqb, ltb};
ghost use Rattle.std.specs.Int.Bits.{bit_and};
ghost use Rattle.scan.specs.Shape.{well_formed};
ghost use Rattle.scan.specs.Walk.{walk};
ghost use Rattle.machine.specs.Machine.{state_ok, scan_of};

use super::past::{read_points, sensor_before};
use choice::both;
use scan::{Holds, Set, State, Walk, columns_of, start_vector};
use shape::well_formed;

// A scan's answer: the vector sent and the passes made, or why it is refused. No Result: statements of promise (`SendsDue`, `EachSays`) are about this type.
#[derive(Clone, Copy)]
pub enum ScanAnswer {
    Sent { vector: u16, passes: u16 },
    BadState,
    BadSensor,
    BadRequest,
    Unsafe,
}

// The answer, and the state for the next scan: of a refused scan the state as it was.
#[derive(Clone, Copy)]
pub struct Scanned {
    pub answer: ScanAnswer,
    pub state: State,
}

// Whether the word has bits only at sensors: below r, and at none of the past points.
fn is_sensor_word(r: usize, past: u32, present: u32) -> bool
    ensures { result ≡ (ltb present (2 ^ r) && eqb (bit_and present past) 0) }
{
    both(words::fits32(present, r), present & past == 0)
}

// Whether the set is well formed and the pasts have its widths.
fn is_state_ok(st: State) -> bool
    ensures { result ≡ state_ok st }
{
    let r = st.set.r;
    let n = st.set.n;
    both(
        well_formed(st.set),
        both(
            words::fits16(st.past_output, n),
            words::fits32(st.past_sensor, r),
        ),
    )
}

// The walk of a well-formed set at the read word w from a request; where an output is forced both ways no pass is made.
fn walk_from(s: &Set, w: u32, request: u16) -> Walk
    requires { well_formed s.now ≡ true }
    ensures { result ≡ walk s.now w request }
{
    let by = columns_of(s);
    let t = by.table(s, by.active_at(w));
    match t.holds {
        Holds::Forced { f0, f1 } => t.walk(f0, f1, start_vector(f0, f1, request)),
        Holds::Clash { output: _ } => Walk::Never,
    }
}

fn refuse(st: State, answer: ScanAnswer) -> Scanned
    ensures { (result.answer ≡ answer) × (result.state ≡ st) }
{
    Scanned { answer, state: st }
}

// One scan with the sensor word and the request.
pub fn scan(state: State, sensor: u32, request: u16) -> Scanned
    ensures { result ≡ scan_of state sensor request }
{
    if !is_state_ok(state) {
        return refuse(state, ScanAnswer::BadState);
    }
    let n = state.set.n;
    let r = state.set.r;
    let past = sensor_before(state.accepted, state.past_sensor, sensor);
    let read = read_points(&state.set, state.past_output, past, sensor);
    if !is_sensor_word(r, read.past, sensor) {
        return refuse(state, ScanAnswer::BadSensor);
    }
    if !words::fits16(request, n) {
        return refuse(state, ScanAnswer::BadRequest);
    }
    match walk_from(&state.set, read.word, request) {
        Walk::Safe { vector, passes } => {
            let mut next = state;
            next.past_output = vector;
            next.past_sensor = sensor;
            next.accepted = true;
            Scanned {
                answer: ScanAnswer::Sent { vector, passes },
                state: next,
            }
        }
        Walk::Never => refuse(state, ScanAnswer::Unsafe),
    }
}
