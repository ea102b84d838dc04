// Numbers, items and sums on standard output.
use std::io;

pub fn print(rt: &impl Print, n: usize) -> io::Result<()> {
    rt.print(n as u64)
}

// A number behind one byte: a space, or what parts the values of an answer.
pub fn print_behind(rt: &impl Print, mark: u8, n: usize) -> io::Result<()> {
    let marks = [mark];
    rt.write_all(&marks)?;
    print(rt, n)
}

// A state's own mark behind one byte: 1 where a scan was accepted since the start, else 0.
pub fn print_accepted(rt: &impl Print, lead: u8, accepted: bool) -> io::Result<()> {
    if accepted {
        print_behind(rt, lead, 1)
    } else {
        print_behind(rt, lead, 0)
    }
}

pub fn end_line(rt: &impl Print) -> io::Result<()> {
    rt.write_all(b"\n")
}

fn mix(sum: u32, byte: u8) -> u32 {
    ((sum as u64 * 31 + byte as u64) % 4294967291) as u32
}

// The sum of bytes, each of which moves those before it.
fn sum_of(bytes: &[u8]) -> u32 {
    bytes.iter().fold(0, |sum, b| mix(sum, *b))
}

pub fn print_sum(rt: &impl Print, mark: u8, bytes: &[u8]) -> io::Result<()> {
    print_behind(rt, mark, sum_of(bytes) as usize)
}
