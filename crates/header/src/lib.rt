// The fields of a file, front to back: a field whatever its tag; and of a set file tags, faults with their numbers, and a field's header.
#![tactic(auto)]

mod numbers; // faults with their numbers, and tags
mod tag; // the tags of a constraint's field
mod header; // a field's header
mod reader; // a file and a place in it

pub use header::{Field, field_at};
pub use numbers::{
    Fault, Refusal, TAG_CONSTRAINT, TAG_COUNTS, TAG_END, TAG_OUTPUT, TAG_READ, TAG_REST,
};
pub use reader::{FrontField, front_at};
pub use tag::{is_wide, literal_size, names_high, tag_by};
