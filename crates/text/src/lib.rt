// The text of a set: one thing on a line, names to the byte.
#![tactic(auto)]

mod page; // bytes and words onto a lent buffer, as far as it goes
mod literal; // the literals of a constraint
mod lines; // a line for each point, output at rest and constraint
mod printing; // the whole text into a lent buffer
mod told; // the number of each answer

pub use printing::put_text;
pub use told::number_of;
