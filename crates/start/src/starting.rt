// The start: the verdict, and a state of the set that it judged.
ghost use Rattle.std.specs.Prelude.{◌≡◌, false, length, drop};
ghost use Rattle.scan.specs.Set.{state_of};
ghost use Rattle.verdict.specs.Judge.{loose_bytes};
ghost use Rattle.start.specs.Start.{start_state, start_of};

use scan::{Set, State, zero_set};
use verdict::{Verdict, judge};

// The verdict, and the state: with every field zero where the set is rejected.
// No Result: the theorem `refuses` of promise speaks of the state beside a rejection.
#[derive(Clone, Copy)]
pub struct Started {
    pub verdict: Verdict,
    pub state: State,
}

// The state of the set with its rest word as the past output word, past sensor word 0, and no scan accepted yet.
fn fresh(set: Set) -> State
    ensures { result ≡ state_of set set.rest 0 false }
{
    let rest = set.rest;
    State {
        set,
        past_output: rest,
        past_sensor: 0,
        accepted: false,
    }
}

// The state that a verdict leads to.
fn state_of(set: Set, verdict: Verdict) -> State
    ensures { result ≡ start_state set verdict }
{
    if let Verdict::Accepted = verdict {
        return fresh(set);
    }
    fresh(zero_set())
}

// The verdict on the set, and its state if it is accepted.
pub fn start(set: Set, scratch: &mut [u8]) -> Started
    ensures value { result ≡ start_of set (length scratch.old) }
    ensures scratch_unchanged { drop (loose_bytes set (length scratch.old)) scratch.new ≡ drop (loose_bytes set (length scratch.old)) scratch.old }
{
    let verdict = judge(set, scratch);
    let state = state_of(set, verdict);
    Started { verdict, state }
}
