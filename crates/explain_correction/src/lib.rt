// Lines of a correction: the two displacements, and the storage bytes that changed.
#![tactic(auto)]

ghost use Rattle.std.specs.Prelude.{◌≡◌, ◌+◌, ◌*◌, ◌≤◌, length};
ghost use Rattle.text.specs.Text.{Puts};
ghost use Rattle.explain_correction.specs.Correction.{restart_line, error_line, left_after, change_text, change_lines, correction_text};

// ---- the displacements in sense bytes

fn put_restart_line(out: &mut [u8], at: usize, sense: &[u8]) -> usize
    requires at_in_bounds { at + 83 ≤ length out.old }
    requires sense_len { length sense.now ≡ 24 }
    ensures puts { Puts out.old at (restart_line sense.now) out.new result }
    ensures value { result ≡ at + 83 }
{
    let n = base::be24(sense, 15);
    let number = text::put(out, at, b"restart displacement");
    let end = text::put_number(out, number, 10, 5, n);
    text::put(
        out,
        end,
        b", from the front of the read to the end of the data area\n",
    )
}

fn put_error_line(out: &mut [u8], at: usize, sense: &[u8]) -> usize
    requires at_in_bounds { at + 45 ≤ length out.old }
    requires sense_len { length sense.now ≡ 24 }
    ensures puts { Puts out.old at (error_line sense.now) out.new result }
    ensures value { result ≡ at + 45 }
{
    let n = base::be16(sense, 18);
    let number = text::put(out, at, b"error displacement");
    let end = text::put_number(out, number, 10, 5, n);
    text::put(out, end, b", back from that end\n")
}

// ---- the storage bytes

// How many more may change behind a byte.
fn left_after(n: usize, b: usize) -> usize
    ensures value { result ≡ left_after n b }
    ensures upper_bound { result ≤ n }
{
    if b == 0 {
        return n;
    }
    if n == 0 {
        return 0;
    }
    n - 1
}

// The line of a byte that changed, where n may still change.
fn put_change(out: &mut [u8], at: usize, n: usize, a: usize, b: usize) -> usize
    requires { at + n * 35 ≤ length out.old }
    ensures puts { Puts out.old at (change_text n a b) out.new result }
    ensures b_bound { result + left_after n b * 35 ≤ at + n * 35 }
{
    if b == 0 {
        return at;
    }
    if n == 0 {
        return at;
    }
    let address = text::put(out, at, b"storage byte");
    let colon = text::put_number(out, address, 16, 4, a);
    let pattern = text::put(out, colon, b": exclusive-or");
    let end = text::put_number(out, pattern, 16, 2, b);
    text::put(out, end, b"\n")
}

// The lines of the bytes that changed in a storage of zeros: a pattern has three.
fn put_changes(out: &mut [u8], at: usize, storage: &[u8]) -> usize
    requires { at + 105 ≤ length out.old }
    ensures puts { Puts out.old at (change_lines storage.now) out.new result }
    ensures upper_bound { result ≤ at + 105 }
{
    let mut next = at;
    let mut left = 3;
    for a in 0..storage.len() {
        let b = base::byte(storage, a);
        next = put_change(out, next, left, a, b);
        left = left_after(left, b);
    }
    next
}

pub fn put_correction(out: &mut [u8], at: usize, sense: &[u8], storage: &[u8]) -> usize
    requires at_in_bounds { at + 233 ≤ length out.old }
    requires sense_len { length sense.now ≡ 24 }
    ensures puts { Puts out.old at (correction_text sense.now storage.now) out.new result }
    ensures upper_bound { result ≤ at + 233 }
{
    let second = put_restart_line(out, at, sense);
    let third = put_error_line(out, second, sense);
    put_changes(out, third, storage)
}
