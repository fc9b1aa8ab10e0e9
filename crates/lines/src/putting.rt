// Writing: bytes, lines and numbers, put one behind the other into a room. Each call answers where the next bytes go.
ghost use Rattle.base.specs.Lent.{given};
ghost use Rattle.lines.specs.Writing.{decimal_of, line};
ghost use Rattle.lines.specs.Puts.{RoomAt, Puts};

// Stays, here and below: the room and a place in it. A struct that lends the room to be written is no plainer, since each contract would
// have to say that it is the same room still.
pub fn put(out: &mut [u8], at: usize, bytes: &[u8]) -> usize
    requires { RoomAt out.old at bytes.now }
    ensures { Puts (given bytes) out.old at out.new result }
{
    let past = at + bytes.len();
    out[at..past].copy_from_slice(bytes);
    past
}

// A line whose value may be any bytes.
pub fn put_line(out: &mut [u8], at: usize, key: &[u8], value: &[u8]) -> usize
    requires { RoomAt out.old at (line key.now value.now) }
    ensures { Puts (line (given key) (given value)) out.old at out.new result }
{
    let at = put(out, at, key);
    let at = put(out, at, value);
    put(out, at, b"\n")
}

// A line whose value is a number in decimal.
pub fn put_number(out: &mut [u8], at: usize, key: &[u8], n: u64) -> usize
    requires { RoomAt out.old at (line key.now (decimal_of n)) }
    ensures { Puts (line (given key) (decimal_of n)) out.old at out.new result }
{
    let mut digits = [0u8; 20];
    let count = io::decimal(n, &mut digits);
    put_line(out, at, key, &digits[..count])
}
