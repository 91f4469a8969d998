// Home addresses, records and tracks by their places in an image. An image is not copied: a place is an offset in it.
#![tactic(auto)]

ghost use Rattle.std.specs.Prelude.{◌≡◌, ◌≤◌, length};
ghost use Rattle.pack.specs.Places.{home_in, home_at, is_track, place_in, record_at, Bounded, TrackFound, RecordFound};

use address::Address;
use fields::Field;

// A home address, with the place behind its field.
#[derive(Clone, Copy)]
pub struct Home {
    pub at: Address,
    pub next: usize,
}

// The home address that a field is, if it is one.
fn home_in(image: &[u8], f: Field) -> Option<Home>
    requires start_le_next { f.start ≤ f.next }
    requires next_in_bounds { f.next ≤ length image.now }
    ensures { result ≡ home_in image.now f }
{
    if f.tag != 1 {
        return None;
    }
    if f.next - f.start != 5 {
        return None;
    }
    if base::byte(image, f.start) != 0 {
        return None;
    }
    if base::byte(image, f.start + 3) != 0 {
        return None;
    }
    Some(Home {
        at: Address {
            cylinder: base::be16(image, f.start + 1),
            head: base::byte(image, f.start + 4),
        },
        next: f.next,
    })
}

// The home address whose field begins at a place, if one does.
pub fn home_at(image: &[u8], at: usize) -> Option<Home>
    ensures { result ≡ home_at image.now at }
{
    let f = fields::field_at(image, at)?;
    home_in(image, f)
}

// Whether a field is the home address of the track.
fn is_track(image: &[u8], f: Field, a: Address) -> bool
    requires start_le_next { f.start ≤ f.next }
    requires next_in_bounds { f.next ≤ length image.now }
    ensures { result ≡ is_track image.now f a }
{
    let Some(home) = home_in(image, f) else {
        return false;
    };
    home.at == a
}

// Where the records of a track begin, if the image has the track: found by one walk over the image's fields.
pub fn find_track(image: &[u8], a: Address) -> Option<usize>
    ensures { TrackFound image.now a result }
{
    let mut here = 0;
    loop {
        let f = fields::field_at(image, here)?;
        if is_track(image, f, a) {
            return Some(f.next);
        }
        here = f.next;
    }
}

// A record by its places: the key lies from `key` up to `body`, the data from `body` up to `next`.
#[derive(Clone, Copy)]
pub struct Place {
    pub at: Address,
    pub r: usize,
    pub key: usize,
    pub body: usize,
    pub next: usize,
}

// The record that a field is, if it is one.
fn record_in(image: &[u8], f: Field) -> Option<Place>
    requires start_le_next { f.start ≤ f.next }
    requires next_in_bounds { f.next ≤ length image.now }
    ensures value { result ≡ place_in image.now f }
    ensures bounded { Bounded image.now result }
{
    if f.tag != 2 {
        return None;
    }
    if f.next - f.start < 8 {
        return None;
    }
    let key = base::byte(image, f.start + 5);
    let len = base::be16(image, f.start + 6);
    if f.next - f.start != 8 + key + len {
        return None;
    }
    Some(Place {
        at: Address {
            cylinder: base::be16(image, f.start),
            head: base::be16(image, f.start + 2),
        },
        r: base::byte(image, f.start + 4),
        key: f.start + 8,
        body: f.start + 8 + key,
        next: f.next,
    })
}

// The record whose field begins at a place, if one does.
pub fn record_at(image: &[u8], at: usize) -> Option<Place>
    ensures value { result ≡ record_at image.now at }
    ensures bounded { Bounded image.now result }
{
    let f = fields::field_at(image, at)?;
    record_in(image, f)
}

// The first record with a number, from a place on and before the next home address.
pub fn find_record(image: &[u8], at: usize, r: usize) -> Option<Place>
    ensures record_found { RecordFound image.now at r result }
    ensures bounded { Bounded image.now result }
{
    let mut here = at;
    loop {
        let p = record_at(image, here)?;
        if p.r == r {
            return Some(p);
        }
        here = p.next;
    }
}
