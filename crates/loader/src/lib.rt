// Loading a set file.
#![tactic(auto)]

mod point; // the bodies of read points and outputs
mod step; // the fields of read points and outputs
mod rest; // the field of the rest word
mod loader; // the whole file, front to back
mod told; // the numbers of its answers

pub use loader::{LoadAnswer, Loaded, load};
pub use told::number_of;
