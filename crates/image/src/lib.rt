// Question 2: the image check, in one pass over the image and with nothing copied.
#![tactic(auto)]

ghost use Rattle.std.specs.Prelude.{◌≡◌, ◌<◌, ◌≤◌, length};
ghost use Rattle.address.specs.Model.{last_of};
ghost use Rattle.image.specs.Image.{follows, well_formed, image_answer};
ghost use Rattle.image.specs.Pass.{fits_in, RecordsTell, TrackTells};

use address::{Address, Model};
use pack::Place;
use questions::Question;

// Whether a track may stand behind another one, if there is one before it.
fn may_follow(b: Option<Address>, a: Address) -> bool
    ensures { result ≡ follows b a }
{
    match b {
        None => true,
        Some(c) => c < a,
    }
}

// Whether a record has the track's address and a length that a track can hold.
fn fits(p: Place, a: Address) -> bool
    requires { p.key ≤ p.next }
    ensures { result ≡ fits_in a p }
{
    if p.at != a {
        return false;
    }
    p.next - p.key <= 13030
}

// Where the records of a track behind R0 end, if they are sound. An entry of `seen` is 1 where its R was met.
fn records_end(image: &[u8], at: usize, a: Address) -> Option<usize>
    requires { at ≤ length image.now }
    ensures { RecordsTell image.now at a result }
{
    let mut seen = [0u8; 256];
    seen[0] = 1;
    let mut here = at;
    loop {
        let Some(p) = pack::record_at(image, here) else {
            return Some(here);
        };
        if !fits(p, a) {
            return None;
        }
        if seen[p.r] == 1 {
            return None;
        }
        seen[p.r] = 1;
        here = p.next;
    }
}

// A track's address, and where it ends.
#[derive(Clone, Copy)]
pub struct TrackEnd {
    pub at: Address,
    pub next: usize,
}

// The track at a place, behind another one, if it is sound.
fn track_end(m: Model, image: &[u8], at: usize, b: Option<Address>) -> Option<TrackEnd>
    requires { at < length image.now }
    ensures { TrackTells (last_of m) b image.now at result }
{
    let home = pack::home_at(image, at)?;
    let a = home.at;
    if !may_follow(b, a) {
        return None;
    }
    if !a.on_pack(m) {
        return None;
    }
    let zero = pack::record_at(image, home.next)?;
    if zero.r != 0 {
        return None;
    }
    if !fits(zero, a) {
        return None;
    }
    let next = records_end(image, zero.next, a)?;
    Some(TrackEnd { at: a, next })
}

// Whether an image is well formed, of a pack of this model.
pub fn well_formed(m: Model, image: &[u8]) -> bool
    ensures { result ≡ well_formed (last_of m) image.now }
{
    let mut here = 0;
    let mut b = None;
    while here < image.len() {
        let Some(track) = track_end(m, image, here, b) else {
            return false;
        };
        b = Some(track.at);
        here = track.next;
    }
    true
}

// Questions 1 and 2 for an image of any size.
pub fn check_image(m: Model, image: &[u8]) -> Result<(), Question>
    ensures { result ≡ image_answer m image.now }
{
    if !questions::image_fits(image.len()) {
        return Err(Question::Areas);
    }
    if well_formed(m, image) {
        return Ok(());
    }
    Err(Question::Image)
}
