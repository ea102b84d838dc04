// The verdict program's line: what it says of a file, and its bytes in a lent buffer.
#![tactic(auto)]

mod draft; // bytes of a line under construction
mod printer; // the line into a lent buffer
mod judging; // the line of a file

pub use judging::judge_file;
pub use printer::{Line, put_line};
