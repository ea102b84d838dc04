// What the programs read with: buffers, and reading until one is full.
#![tactic(auto)]

ghost use Rattle.std.specs.Prelude.{◌≡◌, length, replicate, take};
ghost use Rattle.std.specs.Io.KnownBytes.{Consumes};
ghost use Rattle.bytes_io.specs.Counts.{IsPrefixLen};

use std::io::Read;

// A buffer of zeros.
pub fn zeros<const N: usize>() -> [u8; N]
    ensures { result ≡ replicate N 0 }
{
    [0; N]
}

// Reads until the buffer is full, the input ends or a read fails, and returns how many bytes it put at the front of the buffer.
pub fn read_full<R: Read>(input: &mut R, buf: &mut [u8]) -> usize
    ensures in_bounds { IsPrefixLen result buf.new }
    ensures bytes { Consumes (R.remaining input.old) (R.remaining input.new) (take result buf.new) }
{
    let mut done = 0;
    while done < buf.len() {
        match input.read(&mut buf[done..]) {
            Ok(n) if 0 < n => done += n,
            _ => break,
        }
    }
    done
}
