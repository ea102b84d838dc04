// The points of a set: their names, when the set is well formed, and finding a point by its name.
#![tactic(auto)]

mod names; // names: padding, comparing, the first point of a name
mod shape; // when a set is well formed
mod finding; // finding a point by its name
mod told; // the numbers of its answers
mod putting; // why a set is not put into a lent buffer

pub use finding::{FindError, Point, find};
pub use names::{is_name_used, name_length, names_of_outputs, names_of_reads, spell};
pub use putting::PutError;
pub use shape::{are_counts_ok, is_sensor, well_formed};
pub use told::number_of;
