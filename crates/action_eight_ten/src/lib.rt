// Actions 8, 10 and 10A: a restart that begins at the home address of a track.
#![tactic(auto)]

ghost use Rattle.std.specs.Prelude.{◌≡◌, ◌<◌, ◌≤◌, length};
ghost use Rattle.restart.specs.declared.ReadCount.TheVariants.{Omitted};
ghost use Rattle.recovery.specs.Recovery as Recovery;
ghost use Rattle.report.specs.Told.{ToldLow};
ghost use Rattle.decision.specs.declared.Orientation.TheVariants.{Home};
ghost use Rattle.decision.specs.Decision.{orientation_of, GoesLow};
ghost use Rattle.action_eight_ten.specs.EightTen.{Acts, Interrupts, Behind, Homes, SeekRestarts, ReachedRestarts};

use address::Address;
use channel::{Ccw, Csw, Location};
use decision::{Decision, RestartPlan};
use drive::Command;
use questions::Question;
use recovered::{Kind, Recovered};
use report::Told;
use restart::ReadCount;

// Whether a command is a seek.
fn is_seek(k: Command) -> bool
    ensures { result ≡ Recovery.is_seek k }
{
    match k {
        Command::Seek => true,
        _ => false,
    }
}

// The first track of the next cylinder.
pub fn next_cylinder(a: Address) -> Address
    requires { a.cylinder < 65536 }
    ensures { result ≡ Recovery.next_cylinder a }
{
    Address {
        cylinder: a.cylinder + 1,
        head: 0,
    }
}

// The next track: behind head 18 the next cylinder's first.
pub fn next_track(a: Address) -> Address
    requires cylinder_bound { a.cylinder < 65536 }
    requires head_bound { a.head < 65536 }
    ensures { result ≡ Recovery.next_track a }
{
    if a.head == 18 {
        return next_cylinder(a);
    }
    Address {
        cylinder: a.cylinder,
        head: a.head + 1,
    }
}

// The interrupted CCW, 8 below the CSW's address, if it stands in the chain and is no TIC.
fn interrupted(chain: &[u8], csw: Csw) -> Option<Ccw>
    ensures interrupts { Interrupts chain.now csw result }
    ensures behind { Behind chain.now csw result }
{
    if csw.address < 8 {
        return None;
    }
    let Some(c) = channel::fetch(chain, &chain[..0], Location::Chain(csw.address - 8)) else {
        return None;
    };
    if c.is_tic() {
        return None;
    }
    Some(c)
}

// The restart at the home address of track a, which goes on with the chain's CCW at `to`.
fn home(mask: Option<u8>, a: Address, to: usize, kind: Kind) -> Decision
    requires to_bound { to < 65536 }
    requires kind_value { orientation_of kind Omitted ≡ Home }
    ensures homes { Homes mask a to kind result }
    ensures goes_low { GoesLow result }
{
    let plan = RestartPlan {
        kind: kind,
        counts: ReadCount::Omitted,
        track: a,
        mask: mask,
        sector: 0,
        number: 0,
        to: to,
    };
    Decision::Restarts(plan, correction::nothing())
}

// Action 8: the next cylinder, head 0; the interrupted CCW again.
pub fn eight(chain: &[u8], t: Told) -> Decision
    requires chain_len_bound { length chain.now ≤ 2048 }
    requires told_low { ToldLow t }
    ensures acts { Acts Recovery.action_eight chain.now t result }
    ensures goes_low { GoesLow result }
{
    let csw = t.csw;
    let mask = t.mask;
    let user = t.user;
    let Some(a) = user else {
        return Decision::Answers(Recovered::Refused(Question::Agreement));
    };
    let Some(_) = interrupted(chain, csw) else {
        return Decision::Answers(Recovered::Refused(Question::Agreement));
    };
    home(mask, next_cylinder(a), csw.address - 8, Kind::Eight)
}

// Action 10 for an interrupted seek, the CCW c: the user's track, then the CCW behind the seek.
fn seek_restart(chain: &[u8], csw: Csw, mask: Option<u8>, a: Address, c: Ccw) -> Decision
    requires chain_len_bound { length chain.now ≤ 2048 }
    requires address_bound { csw.address < 16777216 }
    requires le_address { 8 ≤ csw.address }
    ensures seek_restarts { SeekRestarts chain.now csw mask a c result }
    ensures goes_low { GoesLow result }
{
    if !c.chains_command() {
        return Decision::Answers(Recovered::Refused(Question::Agreement));
    }
    let last = Location::Chain(csw.address - 8);
    match channel::resolve(chain, &chain[..0], last, Location::Chain(csw.address)) {
        Err(_) => Decision::Answers(Recovered::Refused(Question::Agreement)),
        Ok((l, d)) => match l {
            Location::Restart(_) => Decision::Answers(Recovered::Refused(Question::Agreement)),
            Location::Chain(to) => home(mask, a, to, Kind::Ten),
        },
    }
}

// Action 10A: the track behind the head reached, on the user's cylinder, and the interrupted CCW again.
fn reached_restart(csw: Csw, mask: Option<u8>, a: Address, head: usize) -> Decision
    requires le_address { 8 ≤ csw.address }
    requires address_bound { csw.address ≤ 2048 }
    requires cylinder_bound { a.cylinder < 65536 }
    ensures reached_restarts { ReachedRestarts csw mask a head result }
    ensures goes_low { GoesLow result }
{
    if 18 < head {
        return Decision::Answers(Recovered::Refused(Question::Agreement));
    }
    let b = Address {
        cylinder: a.cylinder,
        head: head,
    };
    home(mask, next_track(b), csw.address - 8, Kind::TenA)
}

// Action 10; for another CCW than a seek 10A.
pub fn ten(chain: &[u8], t: Told) -> Decision
    requires chain_len_bound { length chain.now ≤ 2048 }
    requires told_low { ToldLow t }
    ensures acts { Acts Recovery.action_ten chain.now t result }
    ensures goes_low { GoesLow result }
{
    let csw = t.csw;
    let mask = t.mask;
    let sense = t.sense;
    let user = t.user;
    let Some(a) = user else {
        return Decision::Answers(Recovered::Refused(Question::Agreement));
    };
    let Some(c) = interrupted(chain, csw) else {
        return Decision::Answers(Recovered::Refused(Question::Agreement));
    };
    if is_seek(Command::from(c.command)) {
        return seek_restart(chain, csw, mask, a, c);
    }
    reached_restart(csw, mask, a, sense.head)
}
