// The past: what a state has beside its set.
ghost use Rattle.std.specs.Prelude.{◌≡◌};
ghost use Rattle.firmware.specs.Past.{with_past, past_of};

use scan::{Set, State};

// The vector sent and the sensor word of the last scan that was accepted, and whether one was since the start: 0 says no.
// A flat struct with numbers, since C reads it.
#[repr(C)]
#[derive(Clone, Copy)]
pub struct Past {
    pub output: u16,
    pub accepted: u8,
    pub sensor: u32,
}

// The past of a state.
pub fn past_of(st: State) -> Past
    ensures { result ≡ past_of st }
{
    Past {
        output: st.past_output,
        accepted: st.accepted as u8,
        sensor: st.past_sensor,
    }
}

// The state of the set with the past.
pub fn with_past(set: Set, past: Past) -> State
    ensures { result ≡ with_past set past }
{
    State {
        set,
        past_output: past.output,
        past_sensor: past.sensor,
        accepted: past.accepted != 0,
    }
}
