// Numbers as decimal digits in ASCII.
#![tactic(auto)]

ghost use Rattle.std.specs.Prelude.{◌≡◌, ◌≤◌, take, drop, replicate};
ghost use Rattle.decimal.specs.Decimal.{decimal};

// The most digits of a number.
pub const MOST_DIGITS: usize = 20;

// The digits of a number stand at the end, from place `at` on; before them stand zeros.
#[derive(Clone, Copy)]
pub struct Digits {
    pub bytes: [u8; MOST_DIGITS],
    pub at: usize,
    ghost in_range: { at ≤ 20 },
}

impl Digits {
    // The digits alone.
    pub fn as_slice(&self) -> &[u8]
        ensures { result.now ≡ drop self.now.at self.now.bytes }
    {
        &self.bytes[self.at..]
    }
}

// The decimal digits of a number, from the last to the first.
pub fn digits_of(n: usize) -> Digits
    ensures { (result.at ≤ 20) × (drop result.at result.bytes ≡ decimal n) × (take result.at result.bytes ≡ replicate result.at 0) }
{
    let mut bytes = [0u8; MOST_DIGITS];
    bytes[19] = (48 + n % 10) as u8;
    let mut rest = n / 10;
    for at in (0..MOST_DIGITS - 1).rev() {
        if rest == 0 {
            return Digits { bytes, at: at + 1 };
        }
        bytes[at] = (48 + rest % 10) as u8;
        rest /= 10;
    }
    Digits { bytes, at: 0 }
}
