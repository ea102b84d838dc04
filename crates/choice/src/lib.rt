// Choices and tests as values, so that loops have no branches.
#![tactic(auto)]

ghost use Rattle.std.specs.Prelude.{◌≡◌, cond, ◌&&◌, ◌||◌};

// Whether both tests passed.
pub fn both(a: bool, b: bool) -> bool
    ensures { result ≡ (a && b) }
{
    if a { b } else { false }
}

// Whether one of the two tests passed.
pub fn either(a: bool, b: bool) -> bool
    ensures { result ≡ (a || b) }
{
    if a { true } else { b }
}

// x if the test passed, else y.
pub fn pick<T: Copy>(test: bool, x: T, y: T) -> T
    ensures { result ≡ cond test x y }
{
    if test { x } else { y }
}
