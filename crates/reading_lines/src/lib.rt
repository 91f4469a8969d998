// The lines that the program prints for an answer.
#![tactic(auto)]

ghost use Rattle.std.specs.Prelude.{◌≡◌, ◌+◌, ◌*◌, ◌≤◌, length, drop};
ghost use Rattle.text.specs.Text.{Puts};
ghost use Rattle.reading_runs.specs.Conclusion.{MadeWithin};
ghost use Rattle.reading_lines.specs.Lines.{room, action_name, record_text, recovery_line, recovery_lines, end_name, end_line, storage_line, refusal_line, answer_text};

use channel::Csw;
use questions::Question;
use reading_runs::{How, Over};

// The bytes of the longest answer: 4,096 recoveries of 21, an end of 28, storage of 33.
pub const ROOM: usize = 86077;

// ---- the recoveries

// 5 or 5A.
fn put_action(out: &mut [u8], at: usize, action: u8) -> usize
    requires { at + 2 ≤ length out.old }
    ensures puts { Puts out.old at (action_name action) out.new result }
    ensures upper_bound { result ≤ at + 2 }
{
    if action == 0x15 {
        return text::put(out, at, b"5A");
    }
    text::put(out, at, b"5")
}

// Cylinder, head and record, and the line's end.
fn put_record(out: &mut [u8], at: usize, cylinder: usize, head: usize, r: usize) -> usize
    requires { at + 12 ≤ length out.old }
    ensures puts { Puts out.old at (record_text cylinder head r) out.new result }
    ensures value { result ≡ at + 12 }
{
    let second = text::put_number(out, at, 10, 3, cylinder);
    let third = text::put_number(out, second, 10, 2, head);
    let end = text::put_number(out, third, 10, 3, r);
    text::put(out, end, b"\n")
}

// The line of the recovery whose six bytes stand at a place of the list.
fn put_recovery(out: &mut [u8], at: usize, list: &[u8], from: usize) -> usize
    requires at_in_bounds { at + 21 ≤ length out.old }
    requires from_in_bounds { from + 6 ≤ length list.now }
    ensures puts { Puts out.old at (recovery_line (drop from list.now)) out.new result }
    ensures upper_bound { result ≤ at + 21 }
{
    let name = text::put(out, at, b"action ");
    let record = put_action(out, name, list[from]);
    put_record(
        out,
        record,
        base::be16(list, from + 1),
        base::be16(list, from + 3),
        base::byte(list, from + 5),
    )
}

// The lines of the recoveries that were made.
fn put_recoveries(out: &mut [u8], at: usize, list: &[u8], made: usize) -> usize
    requires made_in_bounds { at + made * 21 ≤ length out.old }
    requires made_in_bounds_2 { made * 6 ≤ length list.now }
    ensures puts { Puts out.old at (recovery_lines made list.now) out.new result }
    ensures upper_bound { result ≤ at + made * 21 }
{
    let mut next = at;
    let mut from = 0;
    let mut left = made;
    while left > 0 {
        next = put_recovery(out, next, list, from);
        from += 6;
        left -= 1;
    }
    next
}

// ---- the end

// "end", "limit", or "stopped" and its number.
fn put_how(out: &mut [u8], at: usize, how: How) -> usize
    requires { at + 9 ≤ length out.old }
    ensures puts { Puts out.old at (end_name how) out.new result }
    ensures upper_bound { result ≤ at + 9 }
{
    match how {
        How::Ended => {
            return text::put(out, at, b"end");
        }
        How::Limited => {
            return text::put(out, at, b"limit");
        }
        How::Stop(n) => {
            let next = text::put(out, at, b"stopped");
            return text::put_number(out, next, 10, 1, base::wide(n));
        }
    }
}

fn put_end(out: &mut [u8], at: usize, how: How, w: Csw) -> usize
    requires { at + 28 ≤ length out.old }
    ensures puts { Puts out.old at (end_line how w) out.new result }
    ensures upper_bound { result ≤ at + 28 }
{
    let next = put_how(out, at, how);
    status::put_csw(out, next, w)
}

// ---- storage

// The first 16 bytes of storage, or all of a shorter one.
fn put_storage(out: &mut [u8], at: usize, storage: &[u8]) -> usize
    requires { at + 33 ≤ length out.old }
    ensures puts { Puts out.old at (storage_line storage.now) out.new result }
    ensures upper_bound { result ≤ at + 33 }
{
    if storage.len() < 16 {
        let short = text::put_bytes(out, at, storage);
        return text::put(out, short, b"\n");
    }
    let end = text::put_bytes(out, at, &storage[..16]);
    text::put(out, end, b"\n")
}

// ---- the answer

// The line of a refusal.
pub fn put_refusal(out: &mut [u8], at: usize, q: Question) -> usize
    requires { at + 10 ≤ length out.old }
    ensures puts { Puts out.old at (refusal_line q) out.new result }
    ensures value { result ≡ at + 10 }
{
    let end = status::put_refused(out, at, q);
    text::put(out, end, b"\n")
}

// The lines of an answer, with storage and the list of recoveries behind it, at the front of an area; how many bytes they have.
pub fn put(out: &mut [u8], r: Result<Over, Question>, storage: &[u8], list: &[u8]) -> usize
    requires made_within { MadeWithin 4096 r }
    requires in_bounds { 24576 ≤ length list.now }
    requires room_in_bounds { room ≤ length out.old }
    ensures puts { Puts out.old 0 (answer_text r storage.now list.now) out.new result }
    ensures upper_bound { result ≤ room }
{
    match r {
        Err(q) => {
            return put_refusal(out, 0, q);
        }
        Ok(o) => {
            let how = o.how;
            let end = put_recoveries(out, 0, list, o.made);
            let next = put_end(out, end, how, o.csw);
            return put_storage(out, next, storage);
        }
    }
}
