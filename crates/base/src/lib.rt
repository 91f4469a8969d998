// Bytes as numbers, numbers of several bytes, bits, and displacements. Numbers are big-endian; bit 0 of a byte is its highest.
#![tactic(auto)]

ghost use Rattle.std.specs.Prelude.{◌≡◌, ◌+◌, ◌-◌, ◌<◌, ◌≤◌, length, get_or};
ghost use Rattle.base.specs.Bytes.{be16_at, be24_at};
ghost use Rattle.base.specs.Bits.{bit_on, xored_at};

// A byte as a number, with its bound.
pub fn wide(x: u8) -> usize
    ensures value { result ≡ x }
    ensures upper_bound { result < 256 }
{
    x as usize
}

// The byte at a place, as a number with its bound: callers need no fact of the slice.
pub fn byte(s: &[u8], at: usize) -> usize
    requires { at < length s.now }
    ensures value { result ≡ get_or s.now at 0 }
    ensures upper_bound { result < 256 }
{
    s[at] as usize
}

// The two-byte number at a place.
pub fn be16(s: &[u8], at: usize) -> usize
    requires { at + 1 < length s.now }
    ensures value { result ≡ be16_at s.now at }
    ensures upper_bound { result < 65536 }
{
    byte(s, at) * 256 + byte(s, at + 1)
}

// The three-byte number at a place.
pub fn be24(s: &[u8], at: usize) -> usize
    requires { at + 2 < length s.now }
    ensures value { result ≡ be24_at s.now at }
    ensures upper_bound { result < 16777216 }
{
    byte(s, at) * 65536 + be16(s, at + 1)
}

// Whether bit k of a byte is on, bit 0 being the highest.
pub fn bit(x: u8, k: u8) -> bool
    requires { k < 8 }
    ensures { result ≡ bit_on k x }
{
    (x >> (7 - k)) & 1 == 1
}

// x exclusive-ored into the byte at a place, if that is inside.
pub fn exclusive_or(bytes: &mut [u8], at: usize, x: u8)
    ensures { bytes.new ≡ xored_at at x bytes.old }
{
    if at < bytes.len() {
        bytes[at] ^= x;
    }
}

// A count of bytes from the front of a read.
#[derive(Clone, Copy)]
pub struct FromFront(pub usize);

// A count of bytes back from the end of a data area.
#[derive(Clone, Copy)]
pub struct FromEnd(pub usize);

impl FromEnd {
    // The place that is so far before the end, counted from the front.
    pub fn from_front(self, end: FromFront) -> FromFront
        requires { self.0 ≤ end.0 }
        ensures { result.0 ≡ end.0 - self.0 }
    {
        FromFront(end.0 - self.0)
    }
}
