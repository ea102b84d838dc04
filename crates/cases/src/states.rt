// Lists of scans, and states made by hand.
use super::answers::print_scan;
use super::printing::{end_line, print_accepted, print_behind};
use super::records::{PAIR, STATE_BYTES, behind, byte, four_of, two_of};
use scan::{Set, State};
use std::io;

// One scan; the state for the next.
fn scan_one(rt: &impl Print, state: State, sensor: u32, request: u16) -> io::Result<State> {
    let scanned = machine::scan(state, sensor, request);
    let answer = scanned.answer;
    print_scan(rt, answer)?;
    Ok(scanned.state)
}

// What a state keeps beside its set: the pasts and the mark.
fn print_kept(rt: &impl Print, state: State) -> io::Result<()> {
    rt.write_all(b" =")?;
    print_behind(rt, b' ', state.past_sensor as usize)?;
    print_behind(rt, b' ', state.past_output as usize)?;
    print_accepted(rt, b' ', state.accepted)?;
    end_line(rt)
}

// The list of scans, of a words record, each of the state that the one before returned; and the pasts and the mark of the last state.
pub fn print_list(rt: &impl Print, start: State, calls: &[u8]) -> io::Result<()> {
    let mut state = start;
    for call in calls.chunks_exact(PAIR) {
        state = scan_one(rt, state, four_of(call), two_of(behind(call, 4)))?;
    }
    print_kept(rt, state)
}

// The state of the set with the pasts and the mark at the front of a words record.
fn state_of(set: Set, words: &[u8]) -> State {
    State {
        set,
        past_output: two_of(behind(words, 4)),
        past_sensor: four_of(words),
        accepted: byte(words, 6) != 0,
    }
}

// The scans of a words record that begins with a state; without one, of pasts 0, none accepted.
pub fn print_state(rt: &impl Print, set: Set, words: &[u8]) -> io::Result<()> {
    rt.write_all(b"STATE")?;
    print_list(rt, state_of(set, words), behind(words, STATE_BYTES))
}
