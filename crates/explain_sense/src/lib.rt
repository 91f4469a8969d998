// Lines of a report's sense: its bits that are on by their names, and the row of the error table that they match.
#![tactic(auto)]

ghost use Rattle.std.specs.Prelude.{◌≡◌, ◌+◌, ◌<◌, ◌≤◌, length};
ghost use Rattle.text.specs.Text.{Puts};
ghost use Rattle.error_table.specs.Table.{row_of};
ghost use Rattle.explain_sense.specs.Sense.{bit_in, bit_text, sense_line, truncation_line, sense_lines, row_bit, row_bits, row_head, row_line, row_text};

use error_table::Row;

// ---- a bit of sense bytes 0 to 2, by its number from bit 0 of byte 0 on

fn bit_in(s: &[u8], i: usize) -> bool
    requires in_bounds { 3 ≤ length s.now }
    requires i_bound { i < 24 }
    ensures { result ≡ bit_in s.now i }
{
    base::bit(s[i / 8], (i % 8) as u8)
}

// Its byte and bit.
fn put_bit(out: &mut [u8], at: usize, i: usize) -> usize
    requires { at + 3 ≤ length out.old }
    ensures puts { Puts out.old at (bit_text i) out.new result }
    ensures value { result ≡ at + 3 }
{
    let point = text::put_digits(out, at, 10, 1, i / 8);
    let bit = text::put(out, point, b".");
    text::put_digits(out, bit, 10, 1, i % 8)
}

// ---- the sense bits

// The line of a bit, if it is on.
fn put_sense_bit(out: &mut [u8], at: usize, sense: &[u8], i: usize) -> usize
    requires at_in_bounds { at + 76 ≤ length out.old }
    requires in_bounds { 3 ≤ length sense.now }
    requires i_bound { i < 24 }
    ensures puts { Puts out.old at (sense_line sense.now i) out.new result }
    ensures upper_bound { result ≤ at + 76 }
{
    if !bit_in(sense, i) {
        return at;
    }
    let bit = text::put(out, at, b"sense ");
    let colon = put_bit(out, bit, i);
    let name = text::put(out, colon, b": ");
    let end = explain_names::put_sense_name(out, name, i);
    text::put(out, end, b"\n")
}

// The line of a channel truncation, if byte 7 is 53 and bit 7 of byte 23 is on.
fn put_truncation(out: &mut [u8], at: usize, sense: &[u8]) -> usize
    requires at_in_bounds { at + 31 ≤ length out.old }
    requires in_bounds { 24 ≤ length sense.now }
    ensures puts { Puts out.old at (truncation_line sense.now) out.new result }
    ensures upper_bound { result ≤ at + 31 }
{
    if sense[7] != 0x53 {
        return at;
    }
    if !base::bit(sense[23], 7) {
        return at;
    }
    text::put(out, at, b"sense 23.7: channel truncation\n")
}

// The lines of all that are on in bytes 0 to 2, and that of a channel truncation.
pub fn put_sense(out: &mut [u8], at: usize, sense: &[u8]) -> usize
    requires at_in_bounds { at + 1855 ≤ length out.old }
    requires in_bounds { 24 ≤ length sense.now }
    ensures puts { Puts out.old at (sense_lines sense.now) out.new result }
    ensures upper_bound { result ≤ at + 1855 }
{
    let mut next = at;
    for i in 0..24 {
        next = put_sense_bit(out, next, sense, i);
    }
    put_truncation(out, next, sense)
}

// ---- the row

// A bit that a row asks for.
fn put_row_bit(out: &mut [u8], at: usize, asked: &[u8], i: usize) -> usize
    requires at_in_bounds { at + 4 ≤ length out.old }
    requires in_bounds { 3 ≤ length asked.now }
    requires i_bound { i < 24 }
    ensures puts { Puts out.old at (row_bit asked.now i) out.new result }
    ensures upper_bound { result ≤ at + 4 }
{
    if !bit_in(asked, i) {
        return at;
    }
    let bit = text::put(out, at, b" ");
    put_bit(out, bit, i)
}

fn put_row_bits(out: &mut [u8], at: usize, asked: &[u8]) -> usize
    requires at_in_bounds { at + 96 ≤ length out.old }
    requires in_bounds { 3 ≤ length asked.now }
    ensures puts { Puts out.old at (row_bits asked.now) out.new result }
    ensures upper_bound { result ≤ at + 96 }
{
    let mut next = at;
    for i in 0..24 {
        next = put_row_bit(out, next, asked, i);
    }
    next
}

// The number of a row, and the bits that it asks for.
fn put_row_head(out: &mut [u8], at: usize, n: usize, asked: &[u8]) -> usize
    requires at_in_bounds { at + 103 ≤ length out.old }
    requires in_bounds { 3 ≤ length asked.now }
    ensures puts { Puts out.old at (row_head n asked.now) out.new result }
    ensures upper_bound { result ≤ at + 103 }
{
    let number = text::put(out, at, b"row");
    let colon = text::put_number(out, number, 10, 2, n);
    let bits = text::put(out, colon, b":");
    put_row_bits(out, bits, asked)
}

// The line of a row.
fn put_line(out: &mut [u8], at: usize, n: usize, r: Row) -> usize
    requires { at + 177 ≤ length out.old }
    ensures puts { Puts out.old at (row_line n (row_of r)) out.new result }
    ensures upper_bound { result ≤ at + 177 }
{
    let asked = [r.zero, r.one, r.two];
    let comma = put_row_head(out, at, n, &asked);
    let action = text::put(out, comma, b", action ");
    let end = explain_names::put_action_name(out, action, r.action.code());
    text::put(out, end, b"\n")
}

// The line of the row that sense bytes match, if there is one.
pub fn put_row(out: &mut [u8], at: usize, sense: &[u8]) -> usize
    requires at_in_bounds { at + 177 ≤ length out.old }
    requires in_bounds { 3 ≤ length sense.now }
    ensures puts { Puts out.old at (row_text sense.now) out.new result }
    ensures upper_bound { result ≤ at + 177 }
{
    let Some((n, r)) = error_table::row_for(sense[0], sense[1], sense[2]) else {
        return at;
    };
    put_line(out, at, n, r)
}
