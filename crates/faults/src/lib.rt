// The fault list: which record has which fault, and question 3.
#![tactic(auto)]

ghost use Rattle.std.specs.Prelude.{◌≡◌, ◌≤◌, length};
ghost use Rattle.faults.specs.Faults.{faults_answer};
ghost use Rattle.faults.specs.FaultAt.{fault_in, fault_at, named, FaultFound, NamedFrom, FaultSound, FaultsSound};

use address::{Address, Model};
use base::FromEnd;
use fields::Field;
use questions::Question;

// A fault as it was read, with the place behind its field. The displacement counts back from the end of the data area.
#[derive(Clone, Copy)]
pub struct Listed {
    pub at: Address,
    pub r: usize,
    pub displacement: FromEnd,
    pub first: u8,
    pub second: u8,
    pub third: u8,
    pub next: usize,
}

// The fault that a field is, if it is one.
fn fault_in(faults: &[u8], f: Field) -> Option<Listed>
    requires start_le_next { f.start ≤ f.next }
    requires next_in_bounds { f.next ≤ length faults.now }
    ensures { result ≡ fault_in faults.now f }
{
    if f.tag != 0x20 {
        return None;
    }
    if f.next - f.start != 10 {
        return None;
    }
    let start = f.start;
    Some(Listed {
        at: Address {
            cylinder: base::be16(faults, start),
            head: base::be16(faults, start + 2),
        },
        r: base::byte(faults, start + 4),
        displacement: FromEnd(base::be16(faults, start + 5)),
        first: faults[start + 7],
        second: faults[start + 8],
        third: faults[start + 9],
        next: f.next,
    })
}

// The fault whose field begins at a place, if one does.
pub fn fault_at(faults: &[u8], at: usize) -> Option<Listed>
    ensures { result ≡ fault_at faults.now at }
{
    let f = fields::field_at(faults, at)?;
    fault_in(faults, f)
}

// Whether a fault names a record.
fn names(l: Listed, a: Address, r: usize) -> bool
    ensures { result ≡ named l a r }
{
    if l.at != a {
        return false;
    }
    l.r == r
}

// The fault that names a record, from a place in the list on.
pub fn find_fault(faults: &[u8], at: usize, a: Address, r: usize) -> Option<Listed>
    ensures { FaultFound faults.now at a r result }
{
    let mut here = at;
    loop {
        let l = fault_at(faults, here)?;
        if names(l, a, r) {
            return Some(l);
        }
        here = l.next;
    }
}

// Whether a list names a record, from a place on.
fn named_from(faults: &[u8], at: usize, a: Address, r: usize) -> bool
    ensures { NamedFrom faults.now at a r result }
{
    find_fault(faults, at, a, r).is_some()
}

// Whether a fault names a record of the image, from R1 on, and lies in its data.
fn sound_fault(image: &[u8], l: Listed) -> bool
    ensures { FaultSound image.now l result }
{
    if l.r == 0 {
        return false;
    }
    let Some(at) = pack::find_track(image, l.at) else {
        return false;
    };
    let Some(p) = pack::find_record(image, at, l.r) else {
        return false;
    };
    let n = l.displacement.0;
    if n < 1 {
        return false;
    }
    n <= p.next - p.body
}

// Whether each fault of the list is sound, and each record is named once; for an image that does not decode, the answer is open.
pub fn sound_faults(image: &[u8], faults: &[u8]) -> bool
    ensures { FaultsSound image.now faults.now result }
{
    let mut here = 0;
    while here < faults.len() {
        let Some(l) = fault_at(faults, here) else {
            return false;
        };
        if !sound_fault(image, l) {
            return false;
        }
        if named_from(faults, l.next, l.at, l.r) {
            return false;
        }
        here = l.next;
    }
    true
}

// Questions 1, 2 and 3 for an image and a fault list of any size.
pub fn check_faults(m: Model, image: &[u8], faults: &[u8]) -> Result<(), Question>
    ensures { result ≡ faults_answer m image.now faults.now }
{
    if !questions::image_fits(image.len()) {
        return Err(Question::Areas);
    }
    if !questions::faults_fit(faults.len()) {
        return Err(Question::Areas);
    }
    if !image::well_formed(m, image) {
        return Err(Question::Image);
    }
    if sound_faults(image, faults) {
        return Ok(());
    }
    Err(Question::Faults)
}
