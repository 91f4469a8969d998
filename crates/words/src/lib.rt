// Texts out of a list: names stand in one byte string, a slash between each and the next. No knowledge of disks.
#![tactic(auto)]

ghost use Rattle.std.specs.Prelude.{◌≡◌, true, ◌+◌, ◌≤◌, length, drop};
ghost use Rattle.text.specs.Text.{Puts};
ghost use Rattle.words.specs.Words.{up_to, after, rest, item, short};

// One slash less to pass behind a slash.
fn fewer(left: usize, b: u8) -> usize
    ensures value { result ≡ after left b }
    ensures upper_bound { result ≤ left }
{
    if left == 0 {
        return 0;
    }
    if b == b'/' {
        return left - 1;
    }
    left
}

// The place behind so many slashes; the list's end where there are fewer.
fn item_at(list: &[u8], i: usize) -> usize
    ensures list_value { drop result list.now ≡ rest i list.now }
    ensures upper_bound { result ≤ length list.now }
{
    let mut left = i;
    for at in 0..list.len() {
        if left == 0 {
            return at;
        }
        left = fewer(left, list[at]);
    }
    list.len()
}

// The place of the next slash, or the list's end.
fn end_of(list: &[u8], from: usize) -> usize
    requires { from ≤ length list.now }
    ensures value { result ≡ from + length (up_to (drop from list.now)) }
    ensures upper_bound { result ≤ length list.now }
{
    for at in from..list.len() {
        if list[at] == b'/' {
            return at;
        }
    }
    list.len()
}

// The text with number i of a list, counted from 0, at a place; the place behind it.
pub fn put_item(out: &mut [u8], at: usize, list: &[u8], i: usize) -> usize
    requires at_in_bounds { at + 64 ≤ length out.old }
    requires list_value { short 64 list.now ≡ true }
    ensures puts { Puts out.old at (item i list.now) out.new result }
    ensures upper_bound { result ≤ at + 64 }
{
    let from = item_at(list, i);
    let end = end_of(list, from);
    text::put(out, at, &list[from..end])
}
