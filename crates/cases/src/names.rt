// Finding points by names: those of a names record, and a set's own.
use super::answers::print_found;
use super::printing::end_line;
use scan::{NAME_PLACES, Set};
use std::io;

// What each name of a names record finds; a name that is cut off ends them.
pub fn print_names(rt: &impl Print, set: Set, names: &[u8]) -> io::Result<()> {
    rt.write_all(b"NAMES")?;
    let mut rest = names;
    while let Some((len, behind)) = rest.split_first() {
        let Some((name, others)) = behind.split_at_checked(*len as usize) else {
            break;
        };
        print_found(rt, shape::find(set, name))?;
        rest = others;
    }
    end_line(rt)
}

fn print_own(rt: &impl Print, set: Set, name: [u8; NAME_PLACES]) -> io::Result<()> {
    let n = shape::name_length(name);
    print_found(rt, shape::find(set, &name[0..n]))
}

fn print_reads(rt: &impl Print, set: Set) -> io::Result<()> {
    for p in set.reads.iter().take(set.r) {
        print_own(rt, set, p.name)?;
    }
    Ok(())
}

fn print_outputs(rt: &impl Print, set: Set) -> io::Result<()> {
    for p in set.outputs.iter().take(set.n) {
        print_own(rt, set, p.name)?;
    }
    Ok(())
}

// What the name of each point of a set finds.
pub fn print_own_names(rt: &impl Print, set: Set) -> io::Result<()> {
    rt.write_all(b"FIND")?;
    print_reads(rt, set)?;
    print_outputs(rt, set)?;
    end_line(rt)
}
