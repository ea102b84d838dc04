// One constraint: whether it is simple.
ghost use Rattle.std.specs.Prelude.{◌≡◌};
ghost use Rattle.scan.specs.Constraint.{simple};

use super::set::Constraint;

// Whether it has just one output literal.
pub fn is_simple(c: Constraint) -> bool
    ensures { result ≡ simple c }
{
    words::ones16(c.out_plain | c.out_negated) == 1
}
