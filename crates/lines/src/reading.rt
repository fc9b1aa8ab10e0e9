// Reading: one line, from its key to its line feed. A value is a part of the input, or the number that it is in decimal.
// Any bytes are taken; what is not exactly such a line is none.
ghost use Rattle.std.specs.Prelude.{◌≡◌, Option, List, ℕ, ◌+◌, ◌==◌, ◌≤◌, length, drop, position};
ghost use Rattle.base.specs.Lent.{given};
ghost use Rattle.lines.specs.Reads.{value_line, grown_by, decimal_in, signed_in, bytes_line, unsigned_line, signed_line};
ghost use Rattle.lines.specs.Says.{ReadsBy, SaysBytes, Says};

// A part of the input: where it begins, and past its end.
// Stays: no Range, since the library's is not copied.
#[derive(Clone, Copy)]
pub struct Part {
    pub from: usize,
    pub past: usize,
}

// Where the first line feed stands.
fn feed_in(bytes: &[u8]) -> Option<usize>
    ensures { result ≡ position (λ b. b == 10) (given bytes) }
{
    bytes.iter().position(|b| *b == b'\n')
}

// The value of a line: from behind the key up to the line feed.
// Stays, here and below: the input and a place in it, since where a value stands is told as a part of the whole input (ReadsInput).
pub fn bytes_line(input: &[u8], at: usize, key: &[u8]) -> Option<Part>
    requires { at ≤ length input.now }
    ensures { SaysBytes (given input) (at + length (given key)) (bytes_line (given key) (drop at (given input))) result }
{
    let rest = input[at..].strip_prefix(key)?;
    let long = feed_in(rest)?;
    let from = at + key.len();
    Some(Part {
        from,
        past: from + long,
    })
}

// Stays: the library's parse takes a plus sign and leading zeros, which the form does not have.
// The number that these digits make, where each is one and the number stays at most `most`.
fn grown_by(digits: &[u8], most: u32) -> Option<u32>
    ensures { result ≡ grown_by most 0 (given digits) }
{
    let mut value = 0u32;
    for b in digits {
        if !b.is_ascii_digit() {
            return None;
        }
        value = value.checked_mul(10)?.checked_add(u32::from(*b - b'0'))?;
        if most < value {
            return None;
        }
    }
    Some(value)
}

// The same with no leading zero, and at least one digit.
#[tactic(auto, using(crate::proofs::Places::no_digit, crate::proofs::Places::leading_zero, crate::proofs::Places::one_digit, crate::proofs::Places::no_leading_zero))]
fn decimal_in(digits: &[u8], most: u32) -> Option<u32>
    ensures { result ≡ decimal_in most (given digits) }
{
    match digits {
        [] => None,
        [b'0', _, ..] => None,
        _ => grown_by(digits, most),
    }
}

// A signed number of 32 bits. 2,147,483,648 has only a negative, and 0 has none.
#[tactic(auto, using(crate::proofs::Signs::minus_zero))]
fn signed_in(digits: &[u8]) -> Option<i32>
    ensures { result ≡ signed_in (given digits) }
{
    let Some(below) = digits.strip_prefix(b"-") else {
        let n = decimal_in(digits, 2_147_483_647)?;
        return Some(n as i32);
    };
    let n = decimal_in(below, 2_147_483_648)?;
    if n == 0 {
        return None;
    }
    0i32.checked_sub_unsigned(n)
}

// A line whose value is read by itself: what it holds, and where the next line begins.
fn value_line<T, F: Fn(&[u8]) -> Option<T>>(
    input: &[u8],
    at: usize,
    key: &[u8],
    read: F,
) -> Option<(T, usize)>
    requires inside { at ≤ length input.now }
    requires callable { F.IsAlwaysCallable read }
    ensures { (f : List ℕ → Option T) → ReadsBy F.Fn read f → Says (given input) (value_line f (given key) (drop at (given input))) result }
{
    let part = bytes_line(input, at, key)?;
    let value = read(&input[part.from..part.past])?;
    Some((value, part.past + 1))
}

pub fn unsigned_line(input: &[u8], at: usize, key: &[u8], most: u32) -> Option<(u32, usize)>
    requires { at ≤ length input.now }
    ensures { Says (given input) (unsigned_line most (given key) (drop at (given input))) result }
{
    value_line(input, at, key, |digits| decimal_in(digits, most))
}

pub fn signed_line(input: &[u8], at: usize, key: &[u8]) -> Option<(i32, usize)>
    requires { at ≤ length input.now }
    ensures { Says (given input) (signed_line (given key) (drop at (given input))) result }
{
    value_line(input, at, key, signed_in)
}
