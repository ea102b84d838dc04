// Writing one field: its bytes are put straight into the lent buffer, and the place behind them is handed back. The buffer has room for them.
ghost use Rattle.std.specs.Prelude.{◌≡◌, [], ◌∷◌, ◌+◌, ◌*◌, ◌/◌, ◌%◌, ◌^◌, ◌≤◌, ◌<◌, length};
ghost use Rattle.scan.specs.Set.{most_reads, most_outputs, name_places};
ghost use Rattle.scan.specs.Names.{name_bytes};
ghost use Rattle.writer.specs.Write.{field_of, kind_bytes, read_body, output_body, literal_bytes, literals_by, constraint_tag, literal_body, rest_field};
ghost use Rattle.writer.specs.way.Write.{FewPoints, signed_by, literals_at, Put};

use header::{TAG_COUNTS, TAG_OUTPUT, TAG_READ, TAG_REST, literal_size, names_high, tag_by};
use scan::{Constraint, Kind, MOST_READS, NAME_PLACES, OutputPoint, ReadPoint};
use shape::name_length;

// The length of a constraint's literals, in wide form or not.
fn literals_length(c: Constraint, wide: bool) -> usize
    requires { FewPoints c }
    ensures { (result ≡ length (literals_by wide c)) × (result ≤ 3 * (most_reads + most_outputs)) }
{
    let reads = u32::count_ones(c.read_plain | c.read_negated);
    let outputs = u16::count_ones(c.out_plain | c.out_negated);
    literal_size(wide) * (reads as usize + outputs as usize)
}

// The length of a constraint's body.
pub fn body_length(c: Constraint) -> usize
    requires { FewPoints c }
    ensures { (result ≡ length (literal_body c)) × (result ≤ 3 * (most_reads + most_outputs)) }
{
    literals_length(c, names_high(c))
}

fn put_two(buf: &mut [u8], at: usize, first: u8, second: u8) -> usize
    requires { at + 2 ≤ length buf.old }
    ensures { Put buf.old at (first ∷ second ∷ []) buf.new result }
{
    buf[at] = first;
    buf[at + 1] = second;
    at + 2
}

fn put_three(buf: &mut [u8], at: usize, first: u8, second: u8, third: u8) -> usize
    requires { at + 3 ≤ length buf.old }
    ensures { Put buf.old at (first ∷ second ∷ third ∷ []) buf.new result }
{
    buf[at] = first;
    buf[at + 1] = second;
    buf[at + 2] = third;
    at + 3
}

// The header of a field whose body has `len` bytes.
pub fn put_header(buf: &mut [u8], at: usize, tag: u8, len: usize) -> usize
    requires { (at + 3 ≤ length buf.old) × (len < 65536) }
    ensures { Put buf.old at (tag ∷ len / 256 ∷ len % 256 ∷ []) buf.new result }
{
    put_three(buf, at, tag, (len / 256 % 256) as u8, (len % 256) as u8)
}

// The `len` bytes of a name.
fn put_name(buf: &mut [u8], at: usize, name: [u8; NAME_PLACES], len: usize) -> usize
    requires { (len ≡ length (name_bytes name)) × (at + length (name_bytes name) ≤ length buf.old) }
    ensures { Put buf.old at (name_bytes name) buf.new result }
{
    buf[at..at + len].copy_from_slice(&name[..len]);
    at + len
}

// Kind and index.
fn put_kind(buf: &mut [u8], at: usize, kind: Kind) -> usize
    requires { at + 2 ≤ length buf.old }
    ensures { Put buf.old at (kind_bytes kind) buf.new result }
{
    match kind {
        Kind::Sensor => put_two(buf, at, 0, 0),
        Kind::PastOutput(i) => put_two(buf, at, 1, i),
        Kind::PastSensor(i) => put_two(buf, at, 2, i),
    }
}

// The field of the counts.
pub fn put_counts(buf: &mut [u8], at: usize, r: usize, n: usize) -> usize
    requires { (r ≤ most_reads) × (n ≤ most_outputs) × (at + 5 ≤ length buf.old) }
    ensures { Put buf.old at (field_of 0x01 (r ∷ n ∷ [])) buf.new result }
{
    let body = put_header(buf, at, TAG_COUNTS, 2);
    put_two(buf, body, r as u8, n as u8)
}

// The field of a read point.
pub fn put_read(buf: &mut [u8], at: usize, p: ReadPoint) -> usize
    requires { at + length (field_of 0x02 (read_body p)) ≤ length buf.old }
    ensures { Put buf.old at (field_of 0x02 (read_body p)) buf.new result }
{
    let kind = p.kind;
    let name = p.name;
    let len = name_length(name);
    let body = put_header(buf, at, TAG_READ, 2 + len);
    let next = put_kind(buf, body, kind);
    put_name(buf, next, name, len)
}

// The field of an output.
pub fn put_output(buf: &mut [u8], at: usize, p: OutputPoint) -> usize
    requires { at + length (field_of 0x03 (output_body p)) ≤ length buf.old }
    ensures { Put buf.old at (field_of 0x03 (output_body p)) buf.new result }
{
    let name = p.name;
    let len = name_length(name);
    let body = put_header(buf, at, TAG_OUTPUT, len);
    put_name(buf, body, name, len)
}

// The field of the rest word; nothing where it is 0.
pub fn put_rest(buf: &mut [u8], at: usize, rest: u16) -> usize
    requires { at + length (rest_field rest) ≤ length buf.old }
    ensures { Put buf.old at (rest_field rest) buf.new result }
{
    if rest == 0 {
        return at;
    }
    let body = put_header(buf, at, TAG_REST, 2);
    put_two(buf, body, (rest / 256) as u8, (rest % 256) as u8)
}

// The flags of a literal's point, with the top bit set where it is negated.
fn signed(plain: bool, flags: u8) -> u8
    requires { flags ≤ 0x40 }
    ensures { (result ≡ signed_by plain flags) × (result ≤ 0xC0) }
{
    if plain { flags } else { 0x80 + flags }
}

// One literal, of three bytes in a wide constraint, else of two.
fn put_literal(buf: &mut [u8], at: usize, wide: bool, flags: u8, number: u8, rank: u8) -> usize
    requires { (flags + number < 256) × (at + length (literal_bytes wide flags number rank) ≤ length buf.old) }
    ensures { Put buf.old at (literal_bytes wide flags number rank) buf.new result }
{
    if wide {
        return put_three(buf, at, flags, number, rank);
    }
    put_two(buf, at, flags + number, rank)
}

// The literals of the points that are named, each with its rank. Each turn takes the lowest point that is left: the loop goes over bits, and counts nothing.
fn put_literals(
    buf: &mut [u8],
    at: usize,
    wide: bool,
    flags: u8,
    plain: u32,
    named: u32,
    ranks: &[u8],
) -> usize
    requires { (flags ≤ 0x40) × (length ranks.now < 32) × (named < 2 ^ length ranks.now) × (at + length (literals_at wide flags plain named ranks.now) ≤ length buf.old) }
    ensures { Put buf.old at (literals_at wide flags plain named ranks.now) buf.new result }
{
    let mut next = at;
    let mut left = named;
    while 0 < left {
        let k = u32::trailing_zeros(left) as usize;
        let own = signed((plain >> k) % 2 == 1, flags);
        next = put_literal(buf, next, wide, own, k as u8, ranks[k]);
        left = left & (left - 1);
    }
    next
}

// The literals of a constraint, in wide form or not: those of read points, then those of outputs.
fn put_body(buf: &mut [u8], at: usize, c: Constraint, wide: bool) -> usize
    requires { FewPoints c × (at + length (literals_by wide c) ≤ length buf.old) }
    ensures { Put buf.old at (literals_by wide c) buf.new result }
{
    let unranked = [0u8; MOST_READS];
    let ranks = c.ranks;
    let reads = c.read_plain | c.read_negated;
    let outputs = c.out_plain | c.out_negated;
    let next = put_literals(buf, at, wide, 0, c.read_plain, reads, &unranked);
    put_literals(
        buf,
        next,
        wide,
        0x40,
        c.out_plain as u32,
        outputs as u32,
        &ranks,
    )
}

// The field of a constraint.
pub fn put_constraint(buf: &mut [u8], at: usize, c: Constraint) -> usize
    requires { FewPoints c × (at + length (field_of (constraint_tag c) (literal_body c)) ≤ length buf.old) }
    ensures { Put buf.old at (field_of (constraint_tag c) (literal_body c)) buf.new result }
{
    let wide = names_high(c);
    let len = literals_length(c, wide);
    let body = put_header(buf, at, tag_by(wide), len);
    put_body(buf, body, c, wide)
}
