// The masks of active constraints that are known to be of words that pass a test: of good words, at which some vector is safe and every walk reaches a safe one;
// or, in the search for a word without a safe vector, of words with one.
ghost use Rattle.std.specs.Prelude.{◌≡◌};
ghost use Rattle.verdict.specs.way.Seen.{place_of, is_seen, with_seen};

// A prime: masks that differ in one bit have different places.
pub const PLACES: usize = 251;

// The one place where a mask is kept.
fn place_of(active: u64) -> usize
    ensures { result ≡ place_of active }
{
    (active % PLACES as u64) as usize
}

// Whether the mask is the one that its place has.
pub fn is_seen(seen: &[u64; PLACES], active: u64) -> bool
    ensures { result ≡ is_seen seen.now active }
{
    let k = place_of(active);
    seen[k] == active
}

// Keeps the mask at its place, in place of the one that was there.
pub fn keep_seen(seen: &mut [u64; PLACES], active: u64)
    ensures { seen.new ≡ with_seen seen.old active }
{
    let k = place_of(active);
    seen[k] = active;
}
