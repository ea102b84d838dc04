// The scan part of the ranked safety filter: what a set is, and the walk at a read word. It knows nothing of files and of the verdict.
#![tactic(auto)]

mod set; // what a set and a state are made of
mod constraint; // one constraint
mod columns; // the literals of the constraints, one array for each kind
mod active; // the constraints that are active at a read word
mod block; // and at eight read words in a row
mod holds; // the outputs that simple constraints hold, and the start vector
mod pass; // which outputs of a constraint yield
mod table; // the table of the active constraints, and a pass and safety over it
mod eight; // safety of eight vectors at once
mod entries; // the entries of the active constraints alone, for safety where no pass is made
mod walk; // one pass after another while the vector is unsafe

pub use block::{Lows, WORDS};
pub use columns::{Columns, columns_of};
pub use eight::{Eight, low_held};
pub use entries::Entries;
pub use holds::{Holds, hold, start_vector};
pub use set::{
    Constraint, Kind, MOST_CONSTRAINTS, MOST_OUTPUTS, MOST_POINTS, MOST_READS, NAME_PLACES,
    OutputPoint, ReadPoint, Set, State, zero_set,
};
pub use table::Table;
pub use walk::Walk;
