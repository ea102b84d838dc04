// Writing a set file.
#![tactic(auto)]

mod field; // one field into a lent buffer
mod writer; // the whole file into a lent buffer
mod told; // the numbers of its answers

pub use told::number_of;
pub use writer::write;
