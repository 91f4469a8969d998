// The drive's state: where it stands on a track, and where that is in the image. A seek walks the image once; searches and
// reads go on from where the drive stands.
#![tactic(auto)]

ghost use Rattle.std.specs.Prelude.{◌≡◌, true, false, ◌&&◌, [], ◌∷◌, ◌<◌, ◌≤◌, Some, None};
ghost use Rattle.pack.specs.Places.{record_at, TrackFound};
ghost use Rattle.drive.specs.Drive as Abstract;
ghost use Rattle.position.specs.Standing.{drive_of, Sound, Standing, Examines, ExaminedStands, TakesFor, TakenStands};
ghost use Rattle.position.specs.Spots.{Spots, Comes, Second, Here, Ahead};

use address::Address;
use pack::Place;

// `found` says whether the image has the track. Then its records begin at `records`, the count area that comes next has place
// `next` on the track and stands at `here`, and the one that was just passed stands at `behind`.
#[derive(Clone, Copy)]
pub struct Drive {
    pub at: Address,
    pub records: usize,
    pub next: usize,
    pub here: usize,
    pub behind: usize,
    pub passes: usize,
    pub found: bool,
    pub passed: bool,
    pub mask: Option<u8>,
}

// What a search comes to: the drive behind an equal or an unequal count area, or no record found.
#[derive(Clone, Copy)]
pub enum Examined {
    Equal(Drive),
    Unequal(Drive),
    Passed,
}

// A record of the drive's track: its place on the track, where its field starts in the image, and where its parts lie.
#[derive(Clone, Copy)]
struct Spot {
    place: usize,
    start: usize,
    parts: Place,
}

// Whether a record has the address and the number.
fn names(p: Place, a: Address, r: usize) -> bool
    ensures { result ≡ Rattle.position.specs.Spots.names a r p }
{
    if p.at != a {
        return false;
    }
    p.r == r
}

impl Drive {
    // At the index of a track, by where a search for the track ends.
    pub fn at_found(image: &[u8], a: Address, track: Option<usize>, mask: Option<u8>) -> Drive
        requires sound { Sound image.now }
        requires cylinder_bound { (a.cylinder < 65536) × (a.head < 65536) }
        requires track_found { TrackFound image.now a track }
        ensures value { drive_of result ≡ Abstract.at_index a mask }
        ensures standing { Standing image.now result }
    {
        match track {
            Some(at) => Drive {
                at: a,
                found: true,
                records: at,
                next: 0,
                here: at,
                behind: at,
                passed: false,
                passes: 0,
                mask: mask,
            },
            None => Drive {
                at: a,
                found: false,
                records: 0,
                next: 0,
                here: 0,
                behind: 0,
                passed: false,
                passes: 0,
                mask: mask,
            },
        }
    }

    // The same, with that search.
    fn at_track(image: &[u8], a: Address, mask: Option<u8>) -> Drive
        requires sound { Sound image.now }
        requires cylinder_bound { (a.cylinder < 65536) × (a.head < 65536) }
        ensures value { drive_of result ≡ Abstract.at_index a mask }
        ensures standing { Standing image.now result }
    {
        Drive::at_found(image, a, pack::find_track(image, a), mask)
    }

    // As a run starts.
    pub fn initial(image: &[u8]) -> Drive
        requires { Sound image.now }
        ensures value { drive_of result ≡ Abstract.initial }
        ensures standing { Standing image.now result }
    {
        Drive::at_track(
            image,
            Address {
                cylinder: 0,
                head: 0,
            },
            None,
        )
    }

    // At the index of another track, with the mask as it is.
    pub fn sought(self, image: &[u8], a: Address) -> Drive
        requires standing { Standing image.now self }
        requires cylinder_bound { (a.cylinder < 65536) × (a.head < 65536) }
        ensures value { drive_of result ≡ Abstract.at_index a self.mask }
        ensures stands { Standing image.now result }
    {
        Drive::at_track(image, a, self.mask)
    }

    // At the index of the same track, with a mask.
    fn turned(self, image: &[u8], mask: Option<u8>) -> Drive
        requires { Standing image.now self }
        ensures value { drive_of result ≡ Abstract.at_index self.at mask }
        ensures standing { Standing image.now result }
    {
        Drive {
            next: 0,
            here: self.records,
            behind: self.records,
            passed: false,
            passes: 0,
            mask,
            ..self
        }
    }

    // At the index, as control commands and 1A leave the drive.
    pub fn at_index(self, image: &[u8]) -> Drive
        requires { Standing image.now self }
        ensures value { drive_of result ≡ Abstract.at_index self.at self.mask }
        ensures standing { Standing image.now result }
    {
        self.turned(image, self.mask)
    }

    // At the index with a file mask set.
    pub fn masked(self, image: &[u8], m: u8) -> Drive
        requires { Standing image.now self }
        ensures value { drive_of result ≡ Abstract.at_index self.at (Some m) }
        ensures standing { Standing image.now result }
    {
        self.turned(image, Some(m))
    }

    // Behind the count area (`passed`) or the whole of a record.
    fn stepped(self, image: &[u8], x: Spot, passed: bool, passes: usize) -> Drive
        requires standing { Standing image.now self }
        requires spots { Spots image.now self x }
        requires passes_bound { passes ≤ 1 }
        ensures value { drive_of result ≡ Abstract.moved_past (drive_of self) x.place passed passes }
        ensures stands { Standing image.now result }
    {
        Drive {
            next: x.place + 1,
            here: x.parts.next,
            behind: x.start,
            passed,
            passes,
            ..self
        }
    }

    // ---- searches

    // The count area that comes next: behind the last record the index, and then R0 again.
    fn coming(self, image: &[u8]) -> Option<(Spot, usize)>
        requires { Standing image.now self }
        ensures { Comes image.now self result }
    {
        if !self.found {
            return None;
        }
        let Some(parts) = pack::record_at(image, self.here) else {
            return self.round(image);
        };
        let next = Spot {
            place: self.next,
            start: self.here,
            parts,
        };
        Some((next, self.passes))
    }

    // The same at the index.
    fn round(self, image: &[u8]) -> Option<(Spot, usize)>
        requires standing { Standing image.now self }
        requires found_value { self.found ≡ true }
        requires here_value { record_at image.now self.here ≡ None }
        ensures { Comes image.now self result }
    {
        if self.passes == 1 {
            return None;
        }
        let parts = pack::record_at(image, self.records)?;
        let start = self.records;
        let zero = Spot {
            place: 0,
            start,
            parts,
        };
        Some((zero, 1))
    }

    // One search ID equal for the five bytes of its argument.
    pub fn examine(
        self,
        image: &[u8],
        b0: usize,
        b1: usize,
        b2: usize,
        b3: usize,
        b4: usize,
    ) -> Examined
        requires standing { Standing image.now self }
        requires b0_bound { (b0 < 256) × (b1 < 256) × (b2 < 256) × (b3 < 256) × (b4 < 256) }
        ensures examines { Examines image.now self (b0 ∷ b1 ∷ b2 ∷ b3 ∷ b4 ∷ []) result }
        ensures examined_stands { ExaminedStands image.now result }
    {
        let Some((x, passes)) = self.coming(image) else {
            return Examined::Passed;
        };
        let a = Address {
            cylinder: b0 * 256 + b1,
            head: b2 * 256 + b3,
        };
        if names(x.parts, a, b4) {
            return Examined::Equal(self.stepped(image, x, true, 0));
        }
        Examined::Unequal(self.stepped(image, x, true, passes))
    }

    // ---- reads

    // The record behind R0.
    fn second(self, image: &[u8]) -> Option<Spot>
        ensures { Second image.now self result }
    {
        let zero = pack::record_at(image, self.records)?;
        let start = zero.next;
        let parts = pack::record_at(image, start)?;
        Some(Spot {
            place: 1,
            start,
            parts,
        })
    }

    // The record where the drive stands, unless it is R0.
    fn here_unless_zero(self, image: &[u8]) -> Option<Place>
        ensures { Here image.now self result }
    {
        if self.next == 0 {
            return None;
        }
        pack::record_at(image, self.here)
    }

    // The next record other than R0.
    fn ahead(self, image: &[u8]) -> Option<Spot>
        ensures { Ahead image.now self result }
    {
        let Some(parts) = self.here_unless_zero(image) else {
            return self.second(image);
        };
        Some(Spot {
            place: self.next,
            start: self.here,
            parts,
        })
    }

    // A read of the next record other than R0.
    fn take_ahead(self, image: &[u8], just: bool, datas: bool) -> Option<(Place, Drive)>
        requires standing { Standing image.now self }
        requires found_value { self.found ≡ true }
        requires passed_value { (just && self.passed) ≡ false }
        ensures takes_for { TakesFor image.now self just datas result }
        ensures taken_stands { TakenStands image.now result }
    {
        let x = self.ahead(image)?;
        Some((x.parts, self.stepped(image, x, !datas, 0)))
    }

    // A read of the record whose count area was just passed.
    fn take_passed(self, image: &[u8], datas: bool) -> Option<(Place, Drive)>
        requires standing { Standing image.now self }
        requires found_value { self.found ≡ true }
        requires passed_value { self.passed ≡ true }
        ensures takes_for { TakesFor image.now self true datas result }
        ensures taken_stands { TakenStands image.now result }
    {
        let parts = pack::record_at(image, self.behind)?;
        let x = Spot {
            place: self.next - 1,
            start: self.behind,
            parts,
        };
        Some((parts, self.stepped(image, x, !datas, 0)))
    }

    // Whether a read takes the record whose count area was just passed.
    pub fn takes_passed(self, just: bool) -> bool
        ensures { result ≡ (just && self.passed) }
    {
        if !just {
            return false;
        }
        self.passed
    }

    // One read: `just` of 06 and 0E, which take the record whose count area was just passed; `datas` of reads that take the data,
    // behind which no count area was just passed.
    pub fn take(self, image: &[u8], just: bool, datas: bool) -> Option<(Place, Drive)>
        requires { Standing image.now self }
        ensures takes_for { TakesFor image.now self just datas result }
        ensures taken_stands { TakenStands image.now result }
    {
        if !self.found {
            return None;
        }
        if self.takes_passed(just) {
            return self.take_passed(image, datas);
        }
        self.take_ahead(image, just, datas)
    }
}
