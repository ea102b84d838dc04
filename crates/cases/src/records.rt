// Reading a corpus: its records, and the numbers in them, high byte first.
use std::io::Read;

// The bytes of a pair of words: four and two.
pub const PAIR: usize = 6;

// The bytes of a state beside its set: a pair, and one for the mark.
pub const STATE_BYTES: usize = 7;

// The next record, in the buffer; none where the input ends before the record does, or the buffer.
pub fn record<'a, R: Read>(input: &mut R, buf: &'a mut [u8]) -> Option<&'a [u8]> {
    let mut head = [0u8; 2];
    if bytes_io::read_full(&mut *input, &mut head) < 2 {
        return None;
    }
    let len = two_of(&head) as usize;
    if buf.len() < len {
        return None;
    }
    if bytes_io::read_full(input, &mut buf[..len]) < len {
        return None;
    }
    Some(&buf[..len])
}

// The byte at a place; 0 where there is none.
pub fn byte(bytes: &[u8], at: usize) -> u8 {
    if at < bytes.len() { bytes[at] } else { 0 }
}

// The bytes behind the first n.
pub fn behind<'a>(bytes: &'a [u8], n: usize) -> &'a [u8] {
    if n <= bytes.len() {
        &bytes[n..]
    } else {
        &bytes[0..0]
    }
}

// The number in the first two bytes, and in the first four.
pub fn two_of(bytes: &[u8]) -> u16 {
    u16::from_be_bytes([byte(bytes, 0), byte(bytes, 1)])
}

pub fn four_of(bytes: &[u8]) -> u32 {
    u32::from_be_bytes([
        byte(bytes, 0),
        byte(bytes, 1),
        byte(bytes, 2),
        byte(bytes, 3),
    ])
}
