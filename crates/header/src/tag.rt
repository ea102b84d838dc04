// The tags of a constraint's field: a wide one names a read point above 15 and has three bytes for a literal, any other has two.
ghost use Rattle.std.specs.Prelude.{◌≡◌};
ghost use Rattle.header.specs.Tag.{is_constraint, is_wide, tag_by, literal_size, names_high};

use super::numbers::{TAG_CONSTRAINT, TAG_WIDE};
use choice::either;
use scan::Constraint;

// The bit of read point 16: masks from here on name a read point above 15.
const FIRST_HIGH: u32 = 1 << 16;

// The tag is a constraint's.
pub fn is_constraint(tag: u8) -> bool
    ensures { result ≡ is_constraint tag }
{
    either(tag == TAG_CONSTRAINT, tag == TAG_WIDE)
}

// It is that of a wide one.
pub fn is_wide(tag: u8) -> bool
    ensures { result ≡ is_wide tag }
{
    tag == TAG_WIDE
}

// The tag of a constraint.
pub fn tag_by(wide: bool) -> u8
    ensures { result ≡ tag_by wide }
{
    if wide { TAG_WIDE } else { TAG_CONSTRAINT }
}

// The bytes of a literal.
pub fn literal_size(wide: bool) -> usize
    ensures { result ≡ literal_size wide }
{
    if wide { 3 } else { 2 }
}

// The constraint names a read point above 15.
pub fn names_high(c: Constraint) -> bool
    ensures { result ≡ names_high c }
{
    FIRST_HIGH <= c.read_plain | c.read_negated
}
