// The literals of a set's constraints in columns, one array for each kind: what is asked of every constraint at every read word is read off arrays that are lent.
ghost use Rattle.std.specs.Prelude.{◌≡◌};
ghost use Rattle.scan.specs.way.Columns.{columns_of};

use super::constraint::is_simple;
use super::set::{MOST_CONSTRAINTS, Set};
use choice::pick;

// How many constraints there are; of each the read points named plain, all the read points named, the outputs named plain and those named negated; and which
// constraints are simple, bit i being constraint i. The places beyond the constraints are zero. An array for each kind is no less plain than one of structs, and a loop takes many places at once.
#[derive(Clone, Copy)]
pub struct Columns {
    pub m: usize,
    pub read_plain: [u32; MOST_CONSTRAINTS],
    pub read_named: [u32; MOST_CONSTRAINTS],
    pub out_plain: [u16; MOST_CONSTRAINTS],
    pub out_negated: [u16; MOST_CONSTRAINTS],
    pub simple: u64,
}

// The columns of the set's constraints.
pub fn columns_of(set: &Set) -> Columns
    ensures { result ≡ columns_of set.now }
{
    let end = set.m.min(MOST_CONSTRAINTS);
    let mut read_plain = [0u32; MOST_CONSTRAINTS];
    let mut read_named = [0u32; MOST_CONSTRAINTS];
    let mut out_plain = [0u16; MOST_CONSTRAINTS];
    let mut out_negated = [0u16; MOST_CONSTRAINTS];
    let mut simple: u64 = 0;
    for i in 0..end {
        let c = set.constraints[i];
        read_plain[i] = c.read_plain;
        read_named[i] = c.read_plain | c.read_negated;
        out_plain[i] = c.out_plain;
        out_negated[i] = c.out_negated;
        simple |= pick(is_simple(c), 1 << i, 0);
    }
    Columns {
        m: set.m,
        read_plain,
        read_named,
        out_plain,
        out_negated,
        simple,
    }
}
