// The line is made as a draft first, and then put into the lent buffer. No Display: a line is the bytes that a definition says.
ghost use Rattle.std.specs.Prelude.{◌≡◌, ◌≤◌, [], ◌∷◌, ◌++◌, length};
ghost use Rattle.line.specs.Line.{line_bytes, line_answer, buffer_after};
ghost use Rattle.line.specs.way.Draft.{numbered};

use super::draft::Draft;

// Accepted, with the counts of read points, outputs and constraints; or the refusal of the load and its offset; or why the verdict rejects the set.
#[derive(Clone, Copy)]
pub enum Line {
    Accept { r: usize, n: usize, m: usize },
    Load { number: u8, offset: usize },
    NoVector { word: u32 },
    Clash { word: u32, output: u16 },
    NoEnd { word: u32, request: u16 },
}

// A word, numbers with a space before each, and the line's end.
fn written(word: &[u8], numbers: &[usize]) -> Draft
    requires { (length word.now ≤ 8) × (length numbers.now ≤ 3) }
    ensures { result ≡ numbered word.now numbers.now ++ (0x0A ∷ []) }
{
    let mut draft = Draft::new();
    draft.push_all(word);
    for n in numbers {
        draft.push_number(*n);
    }
    draft.push(0x0A);
    draft
}

// The line's bytes.
#[tactic(auto, unfolding(crate::specs::Line::line_bytes))]
fn line_draft(line: Line) -> Draft
    ensures { result ≡ line_bytes line }
{
    match line {
        Line::Accept { r, n, m } => written(b"ACCEPT", &[r, n, m]),
        Line::Load { number, offset } => written(b"LOAD", &[number as usize, offset]),
        Line::NoVector { word } => written(b"NOVECTOR", &[word as usize]),
        Line::Clash { word, output } => written(b"CLASH", &[word as usize, output as usize]),
        Line::NoEnd { word, request } => written(b"NOEND", &[word as usize, request as usize]),
    }
}

// The line at the front of the buffer, later bytes untouched, and its length; 0 and the buffer untouched where the buffer is shorter than the line.
#[tactic(auto, unfolding(crate::specs::Line::line_answer, crate::specs::Line::buffer_after))]
pub fn put_line(line: Line, buf: &mut [u8]) -> usize
    ensures value { result ≡ line_answer line (length buf.old) }
    ensures buf_after { buf.new ≡ buffer_after line buf.old }
{
    let draft = line_draft(line);
    let bytes = draft.as_slice();
    if buf.len() < bytes.len() {
        return 0;
    }
    buf[..bytes.len()].copy_from_slice(bytes);
    bytes.len()
}
