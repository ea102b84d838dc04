// The verdict program: loads the first 8,192 bytes of standard input and prints one line.
#![tactic(auto)]

use std::io;

fn main(rt: HostRuntime) -> io::Result<()> {
    let mut file = [0u8; 8192];
    let mut input = rt.reader();
    let n = bytes_io::read_full(&mut input, &mut file);
    let mut scratch = [0u8; 512];
    let told = line::judge_file(&file[..n], &mut scratch);
    let mut out = [0u8; 80];
    let len = line::put_line(told, &mut out);
    rt.write_all(&out[..len])
}
