// Text into a lent area: bytes at a place, and numbers in digits. No knowledge of disks.
#![tactic(auto)]

ghost use Rattle.std.specs.Prelude.{◌≡◌, ◌+◌, ◌*◌, ◌<◌, ◌≤◌, length};
ghost use Rattle.text.specs.Text.{Puts, digits, number, bytes_text};
ghost use Rattle.text.specs.Text as Text;

// The character of a digit.
fn character(d: usize) -> u8
    requires { d < 16 }
    ensures { result ≡ Text.character d }
{
    if d < 10 {
        return (0x30 + d) as u8;
    }
    (0x37 + d) as u8
}

// Bytes at a place; the place behind them.
pub fn put(to: &mut [u8], at: usize, s: &[u8]) -> usize
    requires { at + length s.now ≤ length to.old }
    ensures puts { Puts to.old at s.now to.new result }
    ensures value { result ≡ at + length s.now }
{
    for i in 0..s.len() {
        to[at + i] = s[i];
    }
    at + s.len()
}

// The last k digits of a number at a place, from the last to the first; the place behind them.
pub fn put_digits(to: &mut [u8], at: usize, base: usize, k: usize, n: usize) -> usize
    requires k_in_bounds { at + k ≤ length to.old }
    requires base_nonzero { 0 < base }
    requires base_bound { base ≤ 16 }
    ensures puts { Puts to.old at (digits base k n) to.new result }
    ensures value { result ≡ at + k }
{
    let mut rest = n;
    for i in (0..k).rev() {
        to[at + i] = character(rest % base);
        rest /= base;
    }
    at + k
}

// A space, and the last k digits of a number.
pub fn put_number(to: &mut [u8], at: usize, base: usize, k: usize, n: usize) -> usize
    requires k_in_bounds { at + 1 + k ≤ length to.old }
    requires base_nonzero { 0 < base }
    requires base_bound { base ≤ 16 }
    ensures puts { Puts to.old at (number base k n) to.new result }
    ensures value { result ≡ at + 1 + k }
{
    to[at] = b' ';
    put_digits(to, at + 1, base, k, n)
}

// Bytes as two hexadecimal digits each; the place behind them.
pub fn put_bytes(to: &mut [u8], at: usize, s: &[u8]) -> usize
    requires { at + length s.now * 2 ≤ length to.old }
    ensures puts { Puts to.old at (bytes_text s.now) to.new result }
    ensures value { result ≡ at + length s.now * 2 }
{
    let mut next = at;
    for from in 0..s.len() {
        next = put_digits(to, next, 16, 2, base::byte(s, from));
    }
    next
}
