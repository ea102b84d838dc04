// The body of a constraint in a set file: its literals, two bytes each, or three in a wide one.
#![tactic(auto)]

mod literal; // what bytes say, and what is said taken into masks and ranks

pub use literal::literals_of;
