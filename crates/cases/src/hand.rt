// Cases that no file can show: sets and states made by hand, the reckoning of holds, and what is left of lent buffers and scratch.
use super::answers::{print_verdict, print_written};
use super::printing::print_behind;
use machine::ScanAnswer;
use scan::{Holds, Set, State};
use shape::Point;
use std::io;

// What lent bytes hold before a call.
const FILL: u8 = 0xAA;

const FILE_P: [u8; 39] = [
    0x01, 0x00, 0x02, 0x01, 0x02, 0x02, 0x00, 0x05, 0x00, 0x00, 0x30, 0x30, 0x37, 0x03, 0x00, 0x02,
    0x30, 0x37, 0x03, 0x00, 0x01, 0x37, 0x04, 0x00, 0x04, 0x00, 0x00, 0x41, 0x00, 0x04, 0x00, 0x04,
    0x40, 0x00, 0xC1, 0x01, 0x05, 0x00, 0x00,
];

// "s and not A", "s and A": at word 1 no vector is safe.
const FILE_CLASHING: [u8; 32] = [
    0x01, 0x00, 0x02, 0x01, 0x01, 0x02, 0x00, 0x03, 0x00, 0x00, 0x73, 0x03, 0x00, 0x01, 0x41, 0x04,
    0x00, 0x04, 0x00, 0x00, 0xC0, 0x00, 0x04, 0x00, 0x04, 0x00, 0x00, 0x40, 0x00, 0x05, 0x00, 0x00,
];

// "A and not B", "A and B", B of rank 0 and A of rank 1 in both: the walk from request 1 never is safe, though a safe vector exists.
const FILE_ENDLESS: [u8; 30] = [
    0x01, 0x00, 0x02, 0x00, 0x02, 0x03, 0x00, 0x01, 0x41, 0x03, 0x00, 0x01, 0x42, 0x04, 0x00, 0x04,
    0x40, 0x01, 0xC1, 0x00, 0x04, 0x00, 0x04, 0x40, 0x01, 0x41, 0x00, 0x05, 0x00, 0x00,
];

// Read point 1 is the past of sensor 0; "now, not past, A".
const FILE_EDGE: [u8; 33] = [
    0x01, 0x00, 0x02, 0x02, 0x01, 0x02, 0x00, 0x03, 0x00, 0x00, 0x73, 0x02, 0x00, 0x03, 0x02, 0x00,
    0x70, 0x03, 0x00, 0x01, 0x41, 0x04, 0x00, 0x06, 0x00, 0x00, 0x81, 0x00, 0x40, 0x00, 0x05, 0x00,
    0x00,
];

fn set_p() -> Set {
    let loaded = loader::load(&FILE_P);
    loaded.set
}

fn set_clashing() -> Set {
    let loaded = loader::load(&FILE_CLASHING);
    loaded.set
}

fn set_endless() -> Set {
    let loaded = loader::load(&FILE_ENDLESS);
    loaded.set
}

fn set_edge() -> Set {
    let loaded = loader::load(&FILE_EDGE);
    loaded.set
}

fn print_test(rt: &impl Print, test: bool) -> io::Result<()> {
    if test {
        rt.write_all(b" yes")
    } else {
        rt.write_all(b" no")
    }
}

// P with a byte of a name beyond the counts.
fn stray_name() -> Set {
    let mut s = set_p();
    let mut p = s.reads[5];
    p.name[7] = 1;
    s.reads[5] = p;
    s
}

// P with the rank of an output that its first constraint does not name.
fn stray_rank() -> Set {
    let mut s = set_p();
    let mut c = s.constraints[0];
    c.ranks[0] = 1;
    s.constraints[0] = c;
    s
}

// P with a constraint beyond the count.
fn stray_constraint() -> Set {
    let mut s = set_p();
    let c = s.constraints[0];
    s.constraints[63] = c;
    s
}

// P with this rest word.
fn p_resting(rest: u16) -> Set {
    let mut s = set_p();
    s.rest = rest;
    s
}

// P with an output both plain and negated.
fn both_ways() -> Set {
    let mut s = set_p();
    let mut c = s.constraints[0];
    c.out_negated = 2;
    s.constraints[0] = c;
    s
}

fn print_formed(rt: &impl Print) -> io::Result<()> {
    rt.write_all(b"well formed:")?;
    print_test(rt, shape::well_formed(set_p()))?;
    print_test(rt, shape::well_formed(scan::zero_set()))?;
    print_test(rt, shape::well_formed(stray_name()))?;
    print_test(rt, shape::well_formed(stray_rank()))?;
    print_test(rt, shape::well_formed(stray_constraint()))?;
    print_test(rt, shape::well_formed(both_ways()))?;
    print_test(rt, shape::well_formed(p_resting(3)))?;
    print_test(rt, shape::well_formed(p_resting(4)))?;
    print_test(rt, shape::well_formed(p_resting(0x8001)))?;
    rt.write_all(b"\n")
}

// Whether the bytes from `from` on are as they were before a call.
fn is_filled(buf: &[u8], from: usize) -> bool {
    buf.iter().skip(from).all(|b| *b == FILL)
}

// Writing into a buffer: the answer, and whether bytes from `from` on are untouched.
fn print_write(rt: &impl Print, set: Set, buf: &mut [u8], from: usize) -> io::Result<()> {
    print_written(rt, b' ', writer::write(set, &mut *buf))?;
    print_test(rt, is_filled(buf, from))
}

// The verdict and the start with this scratch: the answers, whether bytes from `from` on are untouched, whether the state is zero, and whether it
// says that a scan was accepted.
fn print_judged(rt: &impl Print, set: Set, scratch: &mut [u8], from: usize) -> io::Result<()> {
    let v = verdict::judge(set, scratch);
    print_verdict(rt, b' ', v)?;
    print_test(rt, is_filled(scratch, from))?;
    let started = start::start(set, scratch);
    print_test(rt, is_filled(scratch, from))?;
    let w = started.verdict;
    print_verdict(rt, b' ', w)?;
    print_test(rt, started.state.set.n == 0)?;
    print_test(rt, started.state.accepted)
}

fn print_found(rt: &impl Print, set: Set, name: &[u8]) -> io::Result<()> {
    let found = shape::find(set, name);
    match found {
        Ok(Point::Read(k)) => {
            rt.write_all(b" 0")?;
            print_behind(rt, b' ', k)
        }
        Ok(Point::Output(k)) => {
            rt.write_all(b" 1")?;
            print_behind(rt, b' ', k)
        }
        Err(_) => print_behind(rt, b' ', shape::number_of(found) as usize),
    }
}

// A state made by hand.
fn state_with(set: Set, past_output: u16, past_sensor: u32, accepted: bool) -> State {
    State {
        set,
        past_output,
        past_sensor,
        accepted,
    }
}

// One scan of a state made by hand: the answer, and the pasts and the mark of the state that comes back.
fn print_scan(rt: &impl Print, state: State, sensor: u32, request: u16) -> io::Result<()> {
    let scanned = machine::scan(state, sensor, request);
    let answer = scanned.answer;
    print_behind(rt, b' ', machine::number_of(answer) as usize)?;
    if let ScanAnswer::Sent { vector, passes } = answer {
        print_behind(rt, b' ', vector as usize)?;
        print_behind(rt, b' ', passes as usize)?;
    }
    print_behind(rt, b' ', scanned.state.past_output as usize)?;
    print_behind(rt, b' ', scanned.state.past_sensor as usize)?;
    print_test(rt, scanned.state.accepted)?;
    rt.write_all(b",")
}

// The same of set P, so that what prints many cases has no set of its own.
fn print_write_p(rt: &impl Print, buf: &mut [u8], from: usize) -> io::Result<()> {
    print_write(rt, set_p(), buf, from)
}

fn print_judged_p(rt: &impl Print, scratch: &mut [u8], from: usize) -> io::Result<()> {
    print_judged(rt, set_p(), scratch, from)
}

fn print_found_p(rt: &impl Print, name: &[u8]) -> io::Result<()> {
    print_found(rt, set_p(), name)
}

// One scan of P, with a state that says that a scan was accepted.
fn print_scan_p(
    rt: &impl Print,
    past_output: u16,
    past_sensor: u32,
    sensor: u32,
    request: u16,
) -> io::Result<()> {
    print_scan(
        rt,
        state_with(set_p(), past_output, past_sensor, true),
        sensor,
        request,
    )
}

// One scan of the edge set.
fn print_scan_edge(
    rt: &impl Print,
    past_sensor: u32,
    accepted: bool,
    sensor: u32,
    request: u16,
) -> io::Result<()> {
    print_scan(
        rt,
        state_with(set_edge(), 0, past_sensor, accepted),
        sensor,
        request,
    )
}

fn print_writes(rt: &impl Print) -> io::Result<()> {
    rt.write_all(b"write:")?;
    let mut exact = [FILL; 39];
    print_write_p(rt, &mut exact, 39)?;
    let mut long = [FILL; 64];
    print_write_p(rt, &mut long, 39)?;
    let mut short = [FILL; 38];
    print_write_p(rt, &mut short, 0)?;
    let mut bad = [FILL; 64];
    print_write(rt, stray_name(), &mut bad, 0)?;
    rt.write_all(b"\n")
}

fn print_verdicts(rt: &impl Print) -> io::Result<()> {
    rt.write_all(b"judge, start:")?;
    let mut exact = [FILL; 1];
    print_judged_p(rt, &mut exact, 1)?;
    let mut long = [FILL; 64];
    print_judged_p(rt, &mut long, 1)?;
    let mut short = [FILL; 3];
    print_judged_p(rt, &mut short[0..0], 0)?;
    let mut bad = [FILL; 3];
    print_judged(rt, stray_rank(), &mut bad, 0)?;
    let mut two = [FILL; 8];
    print_judged(rt, set_clashing(), &mut two, 1)?;
    let mut four = [FILL; 8];
    print_judged(rt, set_endless(), &mut four, 1)?;
    rt.write_all(b"\n")
}

// The reckoning of holds at a read word: 0 and the two words of forced outputs, or 58 and the lowest output forced both ways.
fn print_held(rt: &impl Print, set: Set, w: u32) -> io::Result<()> {
    let holds = scan::hold(set, w);
    match holds {
        Holds::Forced { f0, f1 } => {
            rt.write_all(b" 0")?;
            print_behind(rt, b' ', f0 as usize)?;
            print_behind(rt, b' ', f1 as usize)?;
        }
        Holds::Clash { output } => {
            rt.write_all(b" 58")?;
            print_behind(rt, b' ', output as usize)?;
        }
    }
    rt.write_all(b",")
}

fn print_holds(rt: &impl Print) -> io::Result<()> {
    rt.write_all(b"hold:")?;
    print_held(rt, set_p(), 0)?;
    print_held(rt, set_p(), 1)?;
    print_held(rt, set_clashing(), 0)?;
    print_held(rt, set_clashing(), 1)?;
    rt.write_all(b"\n")
}

fn print_finds(rt: &impl Print) -> io::Result<()> {
    rt.write_all(b"find:")?;
    print_found_p(rt, b"007")?;
    print_found_p(rt, b"07")?;
    print_found_p(rt, b"7")?;
    print_found_p(rt, b"0007")?;
    print_found_p(rt, b"7\0")?;
    print_found_p(rt, b"")?;
    print_found_p(rt, b"123456789")?;
    print_found(rt, both_ways(), b"")?;
    rt.write_all(b"\n")
}

fn print_scans(rt: &impl Print) -> io::Result<()> {
    rt.write_all(b"scan:")?;
    print_scan_p(rt, 4, 0, 2, 4)?;
    print_scan_p(rt, 3, 2, 2, 4)?;
    print_scan(rt, state_with(stray_constraint(), 0, 0, true), 0, 0)?;
    print_scan_p(rt, 3, 1, 2, 4)?;
    print_scan_p(rt, 3, 1, 0, 4)?;
    print_scan_p(rt, 3, 1, 1, 3)?;
    print_scan(rt, state_with(set_clashing(), 1, 0, true), 1, 0)?;
    print_scan(rt, state_with(set_clashing(), 1, 0, false), 1, 0)?;
    print_scan(rt, state_with(set_clashing(), 1, 1, true), 0, 1)?;
    rt.write_all(b"\n")
}

// A past sensor, read where a scan was accepted and not read where none was; and refusals, which leave the mark.
fn print_edges(rt: &impl Print) -> io::Result<()> {
    rt.write_all(b"edge:")?;
    print_scan_edge(rt, 0, true, 1, 1)?;
    print_scan_edge(rt, 0, false, 1, 1)?;
    print_scan_edge(rt, 1, true, 1, 1)?;
    print_scan_edge(rt, 1, false, 1, 1)?;
    print_scan_edge(rt, 2, false, 1, 1)?;
    print_scan_edge(rt, 4, false, 1, 1)?;
    print_scan_edge(rt, 0, false, 2, 1)?;
    print_scan_edge(rt, 0, false, 1, 2)?;
    rt.write_all(b"\n")
}

// The file of P with a rest word, which has five bytes more; what a start gives of it: the verdict, the past output word and the rest word of the state.
fn print_resting(rt: &impl Print, rest: u16) -> io::Result<()> {
    let set = p_resting(rest);
    let mut buf = [FILL; 64];
    print_write(rt, set, &mut buf, 44)?;
    let mut scratch = [FILL; 1];
    let started = start::start(set, &mut scratch);
    let w = started.verdict;
    print_verdict(rt, b' ', w)?;
    print_behind(rt, b' ', started.state.past_output as usize)?;
    print_behind(rt, b' ', started.state.set.rest as usize)?;
    rt.write_all(b",")
}

fn print_rests(rt: &impl Print) -> io::Result<()> {
    rt.write_all(b"rest:")?;
    print_resting(rt, 0)?;
    print_resting(rt, 2)?;
    print_resting(rt, 3)?;
    print_resting(rt, 4)?;
    rt.write_all(b"\n")
}

pub fn print_all(rt: &impl Print) -> io::Result<()> {
    print_formed(rt)?;
    print_writes(rt)?;
    print_verdicts(rt)?;
    print_holds(rt)?;
    print_finds(rt)?;
    print_scans(rt)?;
    print_edges(rt)?;
    print_rests(rt)
}
