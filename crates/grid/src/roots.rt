// The root of a number: the largest whole number whose square is at most it.
ghost use Rattle.std.specs.Prelude.{◌≡◌, ◌<◌};
ghost use Rattle.rules.specs.Worth.{root};

// From the highest bit down: a bit is added where the square still does not pass n. Below 2 ^ 34 a root has at most 17 bits.
pub(crate) fn root(n: u64) -> u32
    requires { n < 17179869184 }
    ensures { result ≡ root n }
{
    let mut found = 0;
    for bit in (0..17u32).rev() {
        let next = found + (1 << bit);
        if (next as u64) * (next as u64) <= n {
            found = next;
        }
    }
    found
}
