// The program that shows a set file: loads the first 8,192 bytes of standard input and prints the text of the set, or the line of the refusal.
#![tactic(auto)]

use std::io;

fn main(rt: HostRuntime) -> io::Result<()> {
    let mut file = [0u8; 8192];
    let mut input = rt.reader();
    let n = bytes_io::read_full(&mut input, &mut file);
    let mut out = bytes_io::zeros::<65536>();
    let len = shown::show_file(&file[..n], &mut out);
    rt.write_all(&out[..len])
}
