// The verdict on a set at commissioning. Above the scan part, whose promises it uses.
#![tactic(auto)]

mod marks; // marks in the scratch: the vectors known to reach a safe one
mod paths; // walks to a mark, and the marking of their paths
mod seen; // the masks of active constraints known to be of words that pass a test
mod missing; // the search for a word without a safe vector
mod verdict; // the verdict
mod told; // the numbers of verdicts

pub use marks::scratch_bytes;
pub use told::number_of;
pub use verdict::{Verdict, judge};
