// A read's data chain retraced, with no byte moved, and the correction of the bytes that stayed.
#![tactic(auto)]

ghost use Rattle.std.specs.Prelude.{◌≡◌, true, ◌||◌, not, [], ◌+◌, ◌≤◌, ltb};
ghost use Rattle.base.specs.Choice.{pick};
ghost use Rattle.channel.specs.Ccw.{chains_data};
ghost use Rattle.channel.specs.Walk.{readable};
ghost use Rattle.channel.specs.Fetch.{InBytes, Inside};
ghost use Rattle.recovery.specs.Correct.{mend};
ghost use Rattle.correction.specs.Retraced.{place_of, Retraces, NextUsable, Usable, unless_overwritten, passed, all_passed, nowhere, mended, nothing};

use channel::{Ccw, Location};

// Of three bytes that follow each other.
#[derive(Clone, Copy)]
pub struct ThreeStayed {
    pub first: Option<usize>,
    pub second: Option<usize>,
    pub third: Option<usize>,
}

// Where a data chain ended: its last CCW, the count left there, whether bytes were left over, and where three bytes stayed.
#[derive(Clone, Copy)]
pub struct End {
    pub at: Location,
    pub ccw: Ccw,
    pub left: usize,
    pub over: bool,
    pub stayed: ThreeStayed,
}

// A correction of storage: where three bytes stayed, and the pattern byte of each.
#[derive(Clone, Copy)]
pub struct Correction {
    pub stayed: ThreeStayed,
    pub pattern0: u8,
    pub pattern1: u8,
    pub pattern2: u8,
}

// A place, unless one of the n bytes under a CCW went there.
fn unless_overwritten(q: Option<usize>, c: Ccw, n: usize) -> Option<usize>
    requires in_bytes { InBytes c }
    requires n_bound { n ≤ 65536 }
    ensures { result ≡ unless_overwritten c n q }
{
    let Some(a) = q else {
        return None;
    };
    if a < c.address {
        return Some(a);
    }
    if a < c.address + n {
        return None;
    }
    Some(a)
}

// Where byte j stands behind the n bytes under one CCW, of which the first is byte `from` of the read.
fn pass(q: Option<usize>, j: usize, c: Ccw, from: usize, n: usize) -> Option<usize>
    requires in_bytes { InBytes c }
    requires n_bound { from + n ≤ 65536 }
    ensures { result ≡ passed c from n j q }
{
    if c.skips() {
        return q;
    }
    if j < from {
        return unless_overwritten(q, c, n);
    }
    if j < from + n {
        return Some(c.address + (j - from));
    }
    unless_overwritten(q, c, n)
}

// The same of bytes k, k + 1 and k + 2.
fn pass_all(s: ThreeStayed, k: usize, c: Ccw, from: usize, n: usize) -> ThreeStayed
    requires in_bytes { InBytes c }
    requires n_bound { from + n ≤ 65536 }
    requires k_bound { k ≤ 65536 }
    ensures { result ≡ all_passed c from n k s }
{
    let first = s.first;
    let second = s.second;
    let third = s.third;
    ThreeStayed {
        first: pass(first, k, c, from, n),
        second: pass(second, k + 1, c, from, n),
        third: pass(third, k + 2, c, from, n),
    }
}

// No byte stayed.
fn nowhere() -> ThreeStayed
    ensures { result ≡ nowhere }
{
    ThreeStayed {
        first: None,
        second: None,
        third: None,
    }
}

// The lesser of two counts.
pub fn lesser(a: usize, b: usize) -> usize
    ensures value { result ≡ pick (ltb a b) a b }
    ensures upper_bound { result ≤ a }
    ensures upper_bound_2 { result ≤ b }
{
    if a < b {
        return a;
    }
    b
}

// Whether a read that has `more` bytes left ends with the CCW c.
pub fn last_of(c: Ccw, more: usize) -> bool
    ensures { result ≡ (ltb more c.count || not (chains_data c)) }
{
    if more < c.count {
        return true;
    }
    !c.chains_data()
}

// The CCW behind the one at l, if a read may use it with storage of `size` bytes.
pub fn next_usable(chain: &[u8], size: usize, l: Location) -> Result<(Location, Ccw), Location>
    requires { Inside chain.now [] l }
    ensures next_usable { NextUsable chain.now size l result }
    ensures usable { Usable chain.now size result }
{
    match channel::resolve(chain, &chain[..0], l, location::next(l)) {
        Err(x) => Err(x),
        Ok((x, c)) => {
            if c.readable(size) {
                return Ok((x, c));
            }
            return Err(x);
        }
    }
}

// A read of n bytes whose first CCW, which a read may use with storage of `size` bytes, is c at l; and its bytes k to k + 2.
pub fn retrace(chain: &[u8], size: usize, l: Location, c: Ccw, n: usize, k: usize) -> Option<End>
    requires inside { Inside chain.now [] l }
    requires in_bytes { InBytes c }
    requires c_value { readable size c ≡ true }
    requires n_bound { n ≤ 65536 }
    requires k_bound { k ≤ 65536 }
    ensures { Retraces chain.now size l c n k result }
{
    let mut here = l;
    let mut word = c;
    let mut from = 0;
    let mut stayed = nowhere();
    loop {
        let more = n - from;
        let took = lesser(more, word.count);
        stayed = pass_all(stayed, k, word, from, took);
        if last_of(word, more) {
            return Some(End {
                at: here,
                ccw: word,
                left: word.count - took,
                over: took < more,
                stayed: stayed,
            });
        }
        from += took;
        match next_usable(chain, size, here) {
            Err(_) => {
                return None;
            }
            Ok((x, e)) => {
                here = x;
                word = e;
            }
        }
    }
}

// ---- the correction

// A pattern byte into the byte that stayed at a place.
fn mend_at(storage: &mut [u8], q: Option<usize>, x: u8)
    ensures { storage.new ≡ mend (place_of q) x storage.old }
{
    match q {
        Some(a) => {
            base::exclusive_or(storage, a, x);
        }
        None => {}
    }
}

// The three pattern bytes.
pub fn mend(storage: &mut [u8], c: Correction)
    ensures { storage.new ≡ mended c storage.old }
{
    let stayed = c.stayed;
    let first = stayed.first;
    let second = stayed.second;
    let third = stayed.third;
    mend_at(storage, first, c.pattern0);
    mend_at(storage, second, c.pattern1);
    mend_at(storage, third, c.pattern2);
}

// Nothing to correct.
pub fn nothing() -> Correction
    ensures { result ≡ nothing }
{
    Correction {
        stayed: nowhere(),
        pattern0: 0,
        pattern1: 0,
        pattern2: 0,
    }
}
