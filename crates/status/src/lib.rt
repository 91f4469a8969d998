// What both programs print alike: a CSW in hexadecimal, and a refusal by its number.
#![tactic(auto)]

ghost use Rattle.std.specs.Prelude.{◌≡◌, ◌+◌, ◌≤◌, length};
ghost use Rattle.text.specs.Text.{Puts};
ghost use Rattle.status.specs.Status.{csw_text, refused_text};

use channel::Csw;
use questions::Question;

// Ending address, unit status, channel status and count left, and the line's end.
pub fn put_csw(out: &mut [u8], at: usize, w: Csw) -> usize
    requires { at + 19 ≤ length out.old }
    ensures puts { Puts out.old at (csw_text w) out.new result }
    ensures value { result ≡ at + 19 }
{
    let unit = text::put_number(out, at, 16, 6, w.address);
    let channel = text::put_number(out, unit, 16, 2, base::wide(w.unit));
    let count = text::put_number(out, channel, 16, 2, base::wide(w.channel));
    let end = text::put_number(out, count, 16, 4, w.count);
    text::put(out, end, b"\n")
}

// A refusal's number behind its word.
pub fn put_refused(out: &mut [u8], at: usize, q: Question) -> usize
    requires { at + 9 ≤ length out.old }
    ensures puts { Puts out.old at (refused_text q) out.new result }
    ensures value { result ≡ at + 9 }
{
    let number = text::put(out, at, b"refused");
    text::put_number(out, number, 10, 1, base::wide(u8::from(q)))
}
