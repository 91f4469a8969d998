// The bytes of a read, through its data chain into storage.
#![tactic(auto)]

ghost use Rattle.std.specs.Prelude.{◌≡◌, true, ◌+◌, ◌≤◌, length, drop};
ghost use Rattle.channel.specs.Walk.{readable};
ghost use Rattle.channel.specs.Fetch.{InBytes, Inside};
ghost use Rattle.transfer.specs.Transfer.{left, Transfers, CountLow, stretched};

use channel::{Ccw, Location};

// How a read's data chain ended: at a CCW with its count left, and whether bytes were left over.
#[derive(Clone, Copy)]
pub struct Moved {
    pub at: Location,
    pub ccw: Ccw,
    pub left: usize,
    pub over: bool,
}

// The next n bytes of a read under one CCW. Its stretch of storage is lent on from its address.
fn stretch(storage: &mut [u8], c: Ccw, bytes: &[u8], from: usize, n: usize)
    requires c_value { readable (length storage.old) c ≡ true }
    requires n_le_count { n ≤ c.count }
    requires n_in_bounds { from + n ≤ length bytes.now }
    requires n_bound { n ≤ 16384 }
    ensures { storage.new ≡ stretched c (drop from bytes.now) n storage.old }
{
    if c.skips() {
        return;
    }
    let a = c.address;
    copy::put(&mut storage[a..], &bytes[from..from + n]);
}

// The bytes of a read whose first CCW, which a read may use, is c at l. A program check shows the CCW that was fetched last.
pub fn transfer(
    chain: &[u8],
    program: &[u8],
    l: Location,
    c: Ccw,
    bytes: &[u8],
    storage: &mut [u8],
) -> Result<Moved, Location>
    requires inside { Inside chain.now program.now l }
    requires in_bytes { InBytes c }
    requires c_value { readable (length storage.old) c ≡ true }
    requires bytes_len_bound { length bytes.now ≤ 16384 }
    ensures transfers { Transfers chain.now program.now l c bytes.now storage.old (left result storage.new) }
    ensures count_low { CountLow result }
{
    let mut here = l;
    let mut word = c;
    let mut from = 0;
    loop {
        let n = bytes.len() - from;
        let k = word.count;
        if n < k {
            stretch(storage, word, bytes, from, n);
            return Ok(Moved {
                at: here,
                ccw: word,
                left: k - n,
                over: false,
            });
        }
        stretch(storage, word, bytes, from, k);
        from += k;
        if !word.chains_data() {
            return Ok(Moved {
                at: here,
                ccw: word,
                left: 0,
                over: from < bytes.len(),
            });
        }
        let (x, e) = channel::resolve(chain, program, here, location::next(here))?;
        if !e.readable(storage.len()) {
            return Err(x);
        }
        here = x;
        word = e;
    }
}
