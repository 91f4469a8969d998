// Where a multitrack command reaches: the drive as it stands, or at the index of a head behind it. A step to the next head looks at
// one field of the image, the home address behind the last record of the track.
#![tactic(auto)]

ghost use Rattle.std.specs.Prelude.{◌≡◌, ◌<◌};
ghost use Rattle.pack.specs.Pack.{pack_of};
ghost use Rattle.drive.specs.Step as Step;
ghost use Rattle.position.specs.Standing.{drive_of, Standing};
ghost use Rattle.heads.specs.Reached.{reached_of, ReachedStands};
ghost use Rattle.heads.specs.Heads.{track_at, TrackEnds, PastZero};

use address::Address;
use position::Drive;

// What is searched or read is reached with a drive, or a unit check ends the command on the way there. Of a protected step the drive before it is
// told. The checks hold this or nothing, so that the compiler keeps each of the drive's numbers in one piece.
#[derive(Clone, Copy)]
pub enum Reached {
    Reaches(Drive),
    NotFound,
    Protected(Drive),
    EndOfCylinder,
}

// Whether the mask forbids steps to the next head: bits 3 and 4 together.
fn protects_step(mask: Option<u8>) -> bool
    ensures { result ≡ Step.protects_step mask }
{
    match mask {
        None => {
            return false;
        }
        Some(m) => {
            if !base::bit(m, 3) {
                return false;
            }
            return base::bit(m, 4);
        }
    }
}

// The records of a track, if its home address stands at a place.
fn track_at(image: &[u8], at: usize, a: Address) -> Option<usize>
    ensures { result ≡ track_at image.now at a }
{
    let home = pack::home_at(image, at)?;
    if home.at != a {
        return None;
    }
    Some(home.next)
}

// At the index of the next head, from where the track ends.
fn next_index(d: Drive, image: &[u8], end: usize) -> Drive
    requires standing { Standing image.now d }
    requires track_ends { TrackEnds image.now d end }
    requires head_bound { d.at.head < 18 }
    ensures value { drive_of result ≡ Step.next_head (drive_of d) }
    ensures stands { Standing image.now result }
{
    let at = d.at;
    let a = Address {
        cylinder: at.cylinder,
        head: at.head + 1,
    };
    Drive::at_found(image, a, track_at(image, end, a), d.mask)
}

// A step to the next head, from where the track ends. Past head 18 the mask does not matter.
fn next_head(d: Drive, image: &[u8], end: usize) -> Reached
    requires standing { Standing image.now d }
    requires track_ends { TrackEnds image.now d end }
    ensures value { reached_of result ≡ Step.stepped (drive_of d) }
    ensures reached_stands { ReachedStands image.now result }
{
    let last = 18 <= d.at.head;
    let barred = protects_step(d.mask);
    if last {
        return Reached::EndOfCylinder;
    }
    if barred {
        return Reached::Protected(d);
    }
    Reached::Reaches(next_index(d, image, end))
}

// Where a search finds the count area that comes next.
pub fn reach_search(d: Drive, image: &[u8]) -> Reached
    requires { Standing image.now d }
    ensures value { reached_of result ≡ Step.search_from (pack_of image.now) (drive_of d) }
    ensures reached_stands { ReachedStands image.now result }
{
    if !d.found {
        return Reached::NotFound;
    }
    let here = d.here;
    match pack::record_at(image, here) {
        Some(_) => Reached::Reaches(d),
        None => next_head(d, image, here),
    }
}

// Where the drive's track goes on behind R0: where the drive stands, or at the index the place behind R0.
fn past_zero(d: Drive, image: &[u8]) -> usize
    requires { Standing image.now d }
    ensures { PastZero image.now d result }
{
    let here = d.here;
    if d.next != 0 {
        return here;
    }
    let Some(zero) = pack::record_at(image, here) else {
        return here;
    };
    zero.next
}

// Where the next record other than R0 is found, head by head.
fn read_on(d: Drive, image: &[u8]) -> Reached
    requires { Standing image.now d }
    ensures value { reached_of result ≡ Step.read_from (pack_of image.now) 19 (drive_of d) }
    ensures reached_stands { ReachedStands image.now result }
{
    let mut e = d;
    loop {
        if !e.found {
            return Reached::NotFound;
        }
        let start = past_zero(e, image);
        let None = pack::record_at(image, start) else {
            return Reached::Reaches(e);
        };
        let r = next_head(e, image, start);
        let Reached::Reaches(f) = r else {
            return r;
        };
        e = f;
    }
}

// Where a read finds its record: `just` of 86 and 8E, which take the record whose count area was just passed.
pub fn reach_read(d: Drive, image: &[u8], just: bool) -> Reached
    requires { Standing image.now d }
    ensures value { reached_of result ≡ Step.take_from (pack_of image.now) just (drive_of d) }
    ensures reached_stands { ReachedStands image.now result }
{
    if d.takes_passed(just) {
        return Reached::Reaches(d);
    }
    read_on(d, image)
}
