// What recovery answers, and the tests that it decides by.
#![tactic(auto)]

ghost use Rattle.std.specs.Prelude.{◌≡◌, true};
ghost use Rattle.location.specs.Low.{Low};
ghost use Rattle.recovery.specs.Recovery as Recovery;
ghost use Rattle.recovered.specs.Applied.{action_number};
ghost use Rattle.recovered.specs.Allowed.{allowed};
ghost use Rattle.recovered.specs.Sensible.{Sensible, InBounds};

use address::{Address, Extent};
use channel::{Csw, Location};
use drive::Command;
use questions::Question;
use report::Sense;

// Which restart was built.
#[derive(Clone, Copy, PartialEq, Eq)]
pub enum Kind {
    Five,
    FiveA,
    Eight,
    Nine,
    Ten,
    TenA,
    Eleven,
}

// What recovery answers: a refusal; action 1 or 2; the chain is to be run again; storage was corrected and no more; it was
// corrected and the chain ended with this CSW; a restart was built.
#[derive(Clone, Copy)]
pub enum Recovered {
    Refused(Question),
    ActionOne,
    ActionTwo,
    Repeat,
    CorrectedOnly,
    Finished(Csw),
    Restart(Kind),
}

// The action of a restart.
impl From<Kind> for u8 {
    ghost from_gives = { λ k n. n ≡ action_number k };

    fn from(k: Kind) -> u8 {
        match k {
            Kind::Five => 0x05,
            Kind::FiveA => 0x15,
            Kind::Eight => 0x08,
            Kind::Nine => 0x09,
            Kind::Ten => 0x0a,
            Kind::TenA => 0x1a,
            Kind::Eleven => 0x0b,
        }
    }
}

// Whether a restart's seek lies on the pack and in the extent.
pub fn seek_allowed(x: Extent, a: Address) -> bool
    ensures { result ≡ allowed x a }
{
    let m = x.model;
    if !a.on_pack(m) {
        return false;
    }
    x.holds(a)
}

// ---- the tests of a correctable data check

// PCI fetch mode: mask bit 7.
pub fn fetch_mode(mask: Option<u8>) -> bool
    ensures { result ≡ Recovery.fetch_mode mask }
{
    match mask {
        None => {
            return false;
        }
        Some(m) => {
            return base::bit(m, 7);
        }
    }
}

// The CSW without unit check.
pub fn less_unit_check(w: Csw) -> Csw
    ensures { result ≡ Recovery.less_unit_check w }
{
    let unit = w.unit;
    if base::bit(unit, 6) {
        return Csw {
            address: w.address,
            unit: unit - channel::UNIT_CHECK,
            channel: w.channel,
            count: w.count,
        };
    }
    w
}

// Whether a command reads a data area.
pub fn reads_data(k: Command) -> bool
    ensures { result ≡ Recovery.reads_data k }
{
    match k {
        Command::ReadRecord(m) => m.datas,
        Command::ReadMultitrack(m) => m.datas,
        _ => false,
    }
}

// Whether the CSW shows the CCW, count and length that the data chain ended with.
pub fn agrees(w: Csw, l: Location, left: usize, wrong: bool) -> bool
    requires { Low l }
    ensures { result ≡ Recovery.agrees w l left wrong }
{
    if w.address != location::address_of(l) + 8 {
        return false;
    }
    if w.count != left {
        return false;
    }
    if wrong {
        return base::bit(w.channel, 1);
    }
    !base::bit(w.channel, 1)
}

// Whether error and restart displacement and the sector are in their bounds.
pub fn sensible(s: Sense) -> bool
    ensures sensible { Sensible s result }
    ensures in_bounds { result ≡ true → InBounds s }
{
    let error = s.error;
    let restart = s.restart;
    if error.0 == 0 {
        return false;
    }
    if 13038 < restart.0 {
        return false;
    }
    if restart.0 < error.0 {
        return false;
    }
    s.sector < 128
}
