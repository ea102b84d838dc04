// Walks to a mark at one read word, and the marking of their paths. The last vectors of a path are kept in a trail, so that a path that is not longer is gone once.
ghost use Rattle.std.specs.Prelude.{◌≡◌, ◌-◌, length};
ghost use Rattle.scan.specs.way.Table.{pass_in};
ghost use Rattle.verdict.specs.way.Paths.{trail_places, Trail, trail_marked, passes_to_mark, mark_reached, comes_to_mark, path_marked, settled};

use super::marks::{is_marked, put_mark};
use choice::both;
use scan::Table;

// The places of the trail.
pub const TRAIL: usize = 1024;

// The passes from `from` to the first vector that is marked, if one of the vectors after 0 to the most passes of the table is. The last vectors before it are in the
// trail, each at the number of its passes modulo the places.
fn passes_to_mark(table: &Table, from: u16, marks: &[u8], trail: &mut [u16; TRAIL]) -> Option<u32>
    requires { length trail.old ≡ trail_places }
    ensures value { result ≡ mark_reached (pass_in table.now) marks.now table.now.limit from }
    ensures trail { Trail (pass_in table.now) from (passes_to_mark (pass_in table.now) marks.now table.now.limit from) trail.new }
{
    let mut v = from;
    for made in 0..table.limit as u32 + 1 {
        if is_marked(marks, v) {
            return Some(made);
        }
        trail[made as usize % TRAIL] = v;
        v = table.pass(v);
    }
    None
}

// Marks the first `made` vectors of the path from `from`, with no look at the marks.
fn mark_path(table: &Table, from: u16, made: u32, marks: &mut [u8])
    ensures { marks.new ≡ path_marked (pass_in table.now) made from marks.old }
{
    let mut v = from;
    for _ in 0..made {
        put_mark(&mut *marks, v);
        v = table.pass(v);
    }
}

// Marks the vectors of the trail from the one after `begin` passes up to the one before `made` passes.
fn mark_trail(trail: &[u16; TRAIL], begin: u32, made: u32, marks: &mut [u8])
    ensures { marks.new ≡ trail_marked trail.now begin (made - begin) marks.old }
{
    for done in begin..made {
        put_mark(&mut *marks, trail[done as usize % TRAIL]);
    }
}

// Whether the walk from `from` comes to a mark within the table's passes; its path up to there is then marked: at once where one pass leads to a mark, as most do,
// and else from the trail, what that has lost by going again.
pub fn settle(table: &Table, from: u16, marks: &mut [u8], trail: &mut [u16; TRAIL]) -> bool
    requires { length trail.old ≡ trail_places }
    ensures value { result ≡ comes_to_mark (pass_in table.now) marks.old table.now.limit from }
    ensures marks_after { marks.new ≡ settled (pass_in table.now) table.now.limit from marks.old }
    ensures trail_len { length trail.new ≡ trail_places }
{
    if is_marked(marks, from) {
        return true;
    }
    if both(0 < table.limit, is_marked(marks, table.pass(from))) {
        put_mark(marks, from);
        return true;
    }
    let Some(made) = passes_to_mark(table, from, marks, &mut *trail) else {
        return false;
    };
    let lost = made.saturating_sub(TRAIL as u32);
    mark_path(table, from, lost, &mut *marks);
    mark_trail(trail, lost, made, marks);
    true
}
