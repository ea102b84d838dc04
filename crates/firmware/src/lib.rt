// The filter for a controller's firmware: what firmware_c exports for C, and what a caller in Rattle has from here. A set is its file; a state is the file and the past. Each answer is a flat struct: document 01's
// number first, 0 for one that is no refusal, and values that the answer does not have are 0.
#![tactic(auto)]

mod past; // what a state has beside its set
mod loading; // whether a file loads
mod judging; // the verdict
mod starting; // the start
mod scanning; // one scan
mod preparing; // a set in bytes that the caller keeps
mod finding; // a point by its name

pub use finding::{FindResult, rsf_find};
pub use judging::{VerdictResult, rsf_judge};
pub use loading::{LoadResult, rsf_load};
pub use past::Past;
pub use preparing::{rsf_prepare, rsf_scan_prepared};
pub use scanning::{ScanResult, rsf_scan};
pub use starting::{StartResult, rsf_start};
