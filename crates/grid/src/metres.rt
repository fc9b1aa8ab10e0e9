// Signed metres: lifted to natural numbers for sums and distances, and floor division of a signed difference.
// Every number of 32 bits is taken; nothing here asks for a lawful grid.
ghost use Rattle.std.specs.Prelude.{◌≡◌, ◌<◌, ◌-ℤ◌};
ghost use Rattle.rules.specs.Places.{lifted, floor_div, edge_strip};
ghost use Rattle.rules.specs.Worth.{apart};

// Metres above the least number of 32 bits.
pub(crate) fn lift(x: i32) -> u64
    ensures { result ≡ lifted x }
{
    let wide = x as i64;
    let raised = wide + 2147483648;
    raised as u64
}

// How far two lifted coordinates are apart.
pub(crate) fn apart(a: u64, b: u64) -> u64
    ensures { result ≡ apart a b }
{
    a.abs_diff(b)
}

pub(crate) fn metres_between(a: i32, b: i32) -> u32
    ensures { result ≡ apart (lifted a) (lifted b) }
{
    a.abs_diff(b)
}

fn difference(x: i32, origin: i32) -> i64
    ensures { result ≡ x -ℤ origin }
{
    let from = origin as i64;
    let to = x as i64;
    to - from
}

// The quotient rounded down, not toward zero.
fn floor_div(x: i64, side: u32) -> i64
    requires { 0 < side }
    ensures { result ≡ floor_div x side }
{
    x.div_euclid(side as i64)
}

// The column or row of an edge, which may lie on either side of the grid.
pub(crate) fn edge_strip(origin: i32, cell: u32, edge: i32) -> i64
    requires { 0 < cell }
    ensures { result ≡ edge_strip origin cell edge }
{
    floor_div(difference(edge, origin), cell)
}
