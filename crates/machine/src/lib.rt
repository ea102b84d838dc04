// The scan machine: what happens in one PLC scan, and in a list of them.
#![tactic(auto)]

mod past; // the read word of a scan
mod machine; // one scan
mod told; // the numbers of its answers

pub use machine::{ScanAnswer, Scanned, scan};
pub use told::number_of;
