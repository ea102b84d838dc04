// The start: the verdict, and a state of the set that it judged.
#![tactic(auto)]

mod starting; // the start

pub use starting::{Started, start};
