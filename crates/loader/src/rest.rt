// The field of the rest word, which may stand between the outputs and the constraints.
ghost use Rattle.std.specs.Prelude.{◌≡◌, ◌^◌, ◌&&◌, ltb, drop};
ghost use Rattle.header.specs.Header.{header_of};
ghost use Rattle.loader.specs.way.Load.{numbered, rest_given, step_by, rest_place};

use choice::both;
use header::{Fault, Refusal, TAG_REST, front_at};
use words::fits16;

// The rest word is not 0, and has bits at the n outputs only.
fn is_rest_good(rest: u16, n: usize) -> bool
    ensures { result ≡ (ltb 0 rest && ltb rest (2 ^ n)) }
{
    both(0 < rest, fits16(rest, n))
}

// The rest word of the field at `at`, of a set of n outputs, and the place behind the field.
fn rest_field(s: &[u8], at: usize, n: usize) -> Result<(u16, usize), Refusal>
    ensures { numbered result ≡ step_by s.now at (rest_given n) (header_of (drop at s.now) 6 0) }
{
    let front = front_at(s, at, TAG_REST, 0)?;
    let rest = u16::from_be_bytes([s[front.at + 3], s[front.at + 4]]);
    if !is_rest_good(rest, n) {
        return Err(Refusal {
            fault: Fault::BadRest,
            offset: front.at,
        });
    }
    Ok((rest, front.at + 3 + front.len))
}

// The rest word, if its field stands at `at`; a field of another tag is left to what follows, and the rest word is 0.
pub fn rest_at(s: &[u8], at: usize, n: usize) -> Result<(u16, usize), Refusal>
    ensures { numbered result ≡ rest_place s.now at n }
{
    if at < s.len() && s[at] == TAG_REST {
        return rest_field(s, at, n);
    }
    Ok((0, at))
}
