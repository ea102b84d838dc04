// What the program `show` prints of a set file.
#![tactic(auto)]

mod showing; // a file's text, or why it is refused

pub use showing::show_file;
