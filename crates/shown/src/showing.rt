// The text of a file: it is loaded, and the set's text is put; a file that is refused gets the line that the verdict program has for it.
ghost use Rattle.std.specs.Prelude.{◌≡◌, length};
ghost use Rattle.shown.specs.Shown.{shown_length, shown_after};

use line::{Line, put_line};
use loader::{LoadAnswer, load};
use text::put_text;

// What is printed of the file at the front of the buffer, later bytes untouched, and its length; 0 and the buffer untouched where the buffer is shorter.
pub fn show_file(file: &[u8], buf: &mut [u8]) -> usize
    ensures value { result ≡ shown_length file.now (length buf.old) }
    ensures buf_after { buf.new ≡ shown_after file.now buf.old }
{
    let loaded = load(file);
    let answer = loaded.answer;
    match answer {
        LoadAnswer::Loaded => put_text(loaded.set, buf).unwrap_or(0),
        LoadAnswer::Refused { number, offset } => put_line(Line::Load { number, offset }, buf),
    }
}
