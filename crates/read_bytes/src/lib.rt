// The bytes of a read, by their places in the image, and as they arrive from a faulted data area.
#![tactic(auto)]

ghost use Rattle.std.specs.Prelude.{◌≡◌, [], ◌∷◌, ◌≤◌, length};
ghost use Rattle.read_bytes.specs.Bytes.{AreBytes, from, to};
ghost use Rattle.read_bytes.specs.Pattern.{Arrives};

use base::{FromEnd, FromFront};
use drive::Read;
use pack::Place;

// That a slice holds bytes, for a caller's proof. The logic knows it where one of them is read.
pub fn hold(s: &[u8])
    ensures { AreBytes s.now }
{
    if 0 < s.len() {
        let _byte = s[0];
    }
}

// Where the bytes of a read begin. The count area is the eight bytes before the key.
pub fn first(p: Place, k: Read) -> usize
    requires { 8 ≤ p.key }
    ensures { result ≡ from k p }
{
    if k.counts {
        return p.key - 8;
    }
    if k.keys {
        return p.key;
    }
    p.body
}

// The place behind them.
pub fn last(p: Place, k: Read) -> usize
    ensures { result ≡ to k p }
{
    if k.datas {
        return p.next;
    }
    p.key
}

// The bytes of a read with a faulted data area, as they arrive: the three pattern bytes in them, from the displacement on,
// which counts back from their end.
pub fn arrive(bytes: &mut [u8], displacement: FromEnd, p0: u8, p1: u8, p2: u8)
    requires { displacement.0 ≤ length bytes.old }
    ensures { Arrives bytes.old displacement.0 (p0 ∷ p1 ∷ p2 ∷ []) bytes.new }
{
    let at = displacement.from_front(FromFront(bytes.len())).0;
    base::exclusive_or(bytes, at, p0);
    base::exclusive_or(bytes, at + 1, p1);
    base::exclusive_or(bytes, at + 2, p2);
}
