// Lines of CCWs: the place, the command, address, count and flags of each, and the restart arguments that it names.
#![tactic(auto)]

ghost use Rattle.std.specs.Prelude.{◌≡◌, ◌+◌, ◌*◌, ◌<◌, ◌≤◌, length};
ghost use Rattle.text.specs.Text.{Puts};
ghost use Rattle.explain_ccws.specs.Ccws.{head_text, operand_text, argument_text, ccw_line, slot_line, ccw_lines, used_in};

use channel::{Ccw, Location};

// The area's name, the CCW's address and its command's code.
fn put_head(out: &mut [u8], at: usize, label: &[u8], place: usize, command: u8) -> usize
    requires at_in_bounds { at + 18 ≤ length out.old }
    requires label_len_bound { length label.now ≤ 8 }
    ensures puts { Puts out.old at (head_text label.now place command) out.new result }
    ensures upper_bound { result ≤ at + 18 }
{
    let code = base::wide(command);
    let address = text::put(out, at, label);
    let colon = text::put_number(out, address, 16, 4, place);
    let number = text::put(out, colon, b":");
    let end = text::put_number(out, number, 16, 2, code);
    text::put(out, end, b" ")
}

// Address, count and flags.
fn put_operands(out: &mut [u8], at: usize, c: Ccw) -> usize
    requires { at + 556 ≤ length out.old }
    ensures puts { Puts out.old at (operand_text c) out.new result }
    ensures upper_bound { result ≤ at + 556 }
{
    let address = text::put(out, at, b", address");
    let comma = text::put_number(out, address, 16, 6, c.address);
    let count = text::put(out, comma, b", count");
    let flags = text::put_number(out, count, 16, 4, c.count);
    explain_names::put_flags(out, flags, c.flags)
}

// The bytes that a CCW names in the restart arguments, if they lie there.
fn put_argument(out: &mut [u8], at: usize, restart_arguments: &[u8], c: Ccw) -> usize
    requires at_in_bounds { at + 43 ≤ length out.old }
    requires restart_arguments_len_bound { length restart_arguments.now ≤ 16 }
    ensures puts { Puts out.old at (argument_text restart_arguments.now c) out.new result }
    ensures upper_bound { result ≤ at + 43 }
{
    let address = c.address;
    let count = c.count;
    if address < 0x2000 {
        return at;
    }
    let from = address - 0x2000;
    if restart_arguments.len() <= from {
        return at;
    }
    if restart_arguments.len() - from < count {
        return at;
    }
    let bytes = text::put(out, at, b", argument ");
    text::put_bytes(out, bytes, &restart_arguments[from..from + count])
}

// The line of a CCW.
fn put_ccw(
    out: &mut [u8],
    at: usize,
    label: &[u8],
    place: usize,
    restart_arguments: &[u8],
    c: Ccw,
) -> usize
    requires at_in_bounds { at + 682 ≤ length out.old }
    requires label_len_bound { length label.now ≤ 8 }
    requires restart_arguments_len_bound { length restart_arguments.now ≤ 16 }
    ensures puts { Puts out.old at (ccw_line label.now place restart_arguments.now c) out.new result }
    ensures upper_bound { result ≤ at + 682 }
{
    let command = put_head(out, at, label, place, c.command);
    let operands = explain_names::put_command(out, command, c);
    let argument = put_operands(out, operands, c);
    let end = put_argument(out, argument, restart_arguments, c);
    text::put(out, end, b"\n")
}

// The line of the CCW with number i of an area, if it has one.
fn put_slot(
    out: &mut [u8],
    at: usize,
    label: &[u8],
    origin: usize,
    s: &[u8],
    restart_arguments: &[u8],
    i: usize,
) -> usize
    requires at_in_bounds { at + 682 ≤ length out.old }
    requires label_len_bound { length label.now ≤ 8 }
    requires origin_bound { origin ≤ 4096 }
    requires restart_arguments_len_bound { length restart_arguments.now ≤ 16 }
    requires i_bound { i < 256 }
    ensures puts { let line = slot_line label.now origin s.now restart_arguments.now i in
        Puts out.old at line out.new result }
    ensures upper_bound { result ≤ at + 682 }
{
    let a = i * 8;
    let Some(c) = channel::fetch(s, &s[..0], Location::Chain(a)) else {
        return at;
    };
    put_ccw(out, at, label, origin + a, restart_arguments, c)
}

// The lines of the first n CCWs of an area that begins at an address; a chain comes with an empty area of arguments.
pub fn put_ccws(
    out: &mut [u8],
    at: usize,
    label: &[u8],
    origin: usize,
    s: &[u8],
    restart_arguments: &[u8],
    n: usize,
) -> usize
    requires n_in_bounds { at + n * 682 ≤ length out.old }
    requires label_len_bound { length label.now ≤ 8 }
    requires origin_bound { origin ≤ 4096 }
    requires restart_arguments_len_bound { length restart_arguments.now ≤ 16 }
    requires n_bound { n ≤ 256 }
    ensures puts { let lines = ccw_lines label.now origin s.now restart_arguments.now n in
        Puts out.old at lines out.new result }
    ensures upper_bound { result ≤ at + n * 682 }
{
    let mut next = at;
    for i in 0..n {
        next = put_slot(out, next, label, origin, s, restart_arguments, i);
    }
    next
}

// How many CCWs of a restart program are used: all before the first whose command is 00.
pub fn used_in(program: &[u8]) -> usize
    requires { length program.now ≡ 64 }
    ensures value { result ≡ used_in program.now }
    ensures upper_bound { result ≤ 8 }
{
    for i in 0..8 {
        if program[i * 8] == 0 {
            return i;
        }
    }
    8
}
