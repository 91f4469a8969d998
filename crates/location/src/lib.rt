// The place of a CCW: its address, the place behind it, and the CSW that shows it.
#![tactic(auto)]

ghost use Rattle.std.specs.Prelude.{◌≡◌, ◌++◌, ◌<◌, ◌≤◌, length, drop};
ghost use Rattle.channel.specs.Ccw.{address_of, next};
ghost use Rattle.channel.specs.Csw.{csw_at, csw_bytes};
ghost use Rattle.location.specs.Low.{Low, NextFits, CswLow};

use channel::{Csw, Location};

// A CCW's address, as a CSW shows it.
pub fn address_of(l: Location) -> usize
    requires { Low l }
    ensures { result ≡ address_of l }
{
    match l {
        Location::Chain(a) => a,
        Location::Restart(a) => 0x1000 + a,
    }
}

// The place behind a CCW.
pub fn next(l: Location) -> Location
    requires { NextFits l }
    ensures { result ≡ next l }
{
    match l {
        Location::Chain(a) => Location::Chain(a + 8),
        Location::Restart(a) => Location::Restart(a + 8),
    }
}

// The CSW behind the CCW at a place.
pub fn csw_at(l: Location, unit: u8, channel: u8, left: usize) -> Csw
    requires low { Low l }
    requires left_bound { left < 0x10000 }
    ensures value { result ≡ csw_at l unit channel left }
    ensures csw_low { CswLow result }
{
    Csw {
        address: address_of(l) + 8,
        unit: unit,
        channel: channel,
        count: left,
    }
}

// A CSW as bytes, at the front of what is lent.
pub fn put_csw(to: &mut [u8], w: Csw)
    requires in_bounds { 8 ≤ length to.old }
    requires csw_low { CswLow w }
    ensures { to.new ≡ csw_bytes w ++ drop 8 to.old }
{
    copy::put(
        to,
        &[
            0,
            (w.address / 65536) as u8,
            (w.address / 256 % 256) as u8,
            (w.address % 256) as u8,
            w.unit,
            w.channel,
            (w.count / 256) as u8,
            (w.count % 256) as u8,
        ],
    );
}
