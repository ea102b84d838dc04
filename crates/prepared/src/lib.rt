// A set in bytes that the caller keeps, so that a scan need not load its file again. The caller does not look into them.
#![tactic(auto)]

mod putting; // the bytes of a set
mod said; // the set that bytes say

pub use putting::put_set;
pub use said::set_said;

// The bytes of a prepared set.
pub const PREPARED_BYTES: usize = 1837;
