// Bytes into a lent part.
#![tactic(auto)]

ghost use Rattle.std.specs.Prelude.{◌≡◌, ◌++◌, ◌≤◌, length, drop};

// All of `from` at the front of `to`, byte by byte.
fn copy_bytes(to: &mut [u8], from: &[u8])
    requires { length from.now ≤ length to.old }
    ensures { to.new ≡ from.now ++ drop (length from.now) to.old }
{
    for i in 0..from.len() {
        to[i] = from[i];
    }
}

// The same by way of a local array, which nothing lent can overlap: the compiler then moves all bytes at once.
pub fn put(to: &mut [u8], from: &[u8])
    requires from_in_bounds { length from.now ≤ length to.old }
    requires from_len_bound { length from.now ≤ 16384 }
    ensures { to.new ≡ from.now ++ drop (length from.now) to.old }
{
    let mut between = [0u8; 16384];
    copy_bytes(&mut between, from);
    copy_bytes(to, &between[..from.len()]);
}
