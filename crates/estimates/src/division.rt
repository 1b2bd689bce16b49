// The two formulas that every estimate rounds and shrinks by.
ghost use Rattle.std.specs.Prelude.{◌≡◌, ◌≤◌};
ghost use Rattle.estimates.specs.Division.{over};
ghost use Rattle.estimates.specs.Short.{Y};

// The only division of the estimates; 0 where the divisor is 0.
pub(crate) fn over(a: u64, b: u64) -> u64
    ensures { result ≡ over a b }
{
    if b == 0 { 0 } else { a / b }
}

// Y(m, n, r): of m values among n rows, those that r of the rows have.
pub(crate) fn short(m: u64, n: u64, r: u64) -> u64
    requires { (m ≤ 1000000) × (r ≤ 1000000) }
    ensures { result ≡ Y m n r }
{
    if 2 * r < m {
        return r;
    }
    if r < 2 * m {
        return over(r + m, 3);
    }
    m
}
