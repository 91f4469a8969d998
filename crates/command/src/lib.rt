// What one command comes to, and how a command ends.
#![tactic(auto)]

ghost use Rattle.std.specs.Prelude.{◌<◌};
ghost use Rattle.channel.specs.Fetch.{InBytes};
ghost use Rattle.location.specs.Low.{Low};
ghost use Rattle.drive.specs.Step as Step;
ghost use Rattle.position.specs.Standing.{drive_of};
ghost use Rattle.command.specs.Answer.{check_of, Answers, Checked, KeptWith, KeptAlways};

use address::Address;
use base::{FromEnd, FromFront};
use channel::{Ccw, Csw, Location};
use position::Drive;

// The unit checks that are no data check.
#[derive(Clone, Copy)]
pub enum Check {
    Rejected,
    NotFound,
    Protected,
    EndOfCylinder,
}

// Why a chain ended: of itself or by a program check; by a unit check; by a step to the next head that the mask forbids, with the head
// that the drive stands on.
#[derive(Clone, Copy)]
pub enum Status {
    Quiet,
    Refused(Check),
    ProtectedStep(u8),
}

// Between two commands: the drive, the place of the next CCW, and the CCW that was fetched last with its count left.
#[derive(Clone, Copy)]
pub struct State {
    pub drive: Drive,
    pub at: Location,
    pub last: Location,
    pub left: usize,
}

// A chain's end.
#[derive(Clone, Copy)]
pub struct End {
    pub csw: Csw,
    pub status: Status,
    pub mask: Option<u8>,
}

// A cut by a faulted data area: the CSW, the record, restart and error displacement, the first CCW of the read, the three pattern
// bytes, whether the count ran out first, and the file mask.
#[derive(Clone, Copy)]
pub struct Cut {
    pub csw: Csw,
    pub at: Address,
    pub r: usize,
    pub restart: FromFront,
    pub error: FromEnd,
    pub first: Location,
    pub pattern0: u8,
    pub pattern1: u8,
    pub pattern2: u8,
    pub over: bool,
    pub mask: Option<u8>,
}

#[derive(Clone, Copy)]
pub enum Answer {
    Goes(State),
    Ends(End),
    Cuts(Cut),
}

// A program check.
pub fn program_check(l: Location, d: Drive) -> Answer
    requires { Low l }
    ensures answers { Answers (Step.program_check l (drive_of d)) result }
    ensures kept_always { KeptAlways result }
{
    let mask = d.mask;
    Answer::Ends(End {
        csw: location::csw_at(l, 0, channel::PROGRAM_CHECK, 0),
        status: Status::Quiet,
        mask: mask,
    })
}

// A unit check, with this status: the command moves nothing.
fn checked(s: Status, l: Location, c: Ccw, d: Drive) -> Answer
    requires low { Low l }
    requires in_bytes { InBytes c }
    ensures checked { Checked s l c (drive_of d) result }
    ensures kept_always { KeptAlways result }
{
    let mask = d.mask;
    Answer::Ends(End {
        csw: location::csw_at(l, channel::END_STATUS | channel::UNIT_CHECK, 0, c.count),
        status: s,
        mask: mask,
    })
}

// A unit check by one of the checks.
pub fn refuse(k: Check, l: Location, c: Ccw, d: Drive) -> Answer
    requires low { Low l }
    requires in_bytes { InBytes c }
    ensures answers { Answers (Step.refusal (check_of k) l c (drive_of d)) result }
    ensures kept_always { KeptAlways result }
{
    checked(Status::Refused(k), l, c, d)
}

// A step that the mask forbids, on this head.
pub fn refuse_step(head: u8, l: Location, c: Ccw, d: Drive) -> Answer
    requires low { Low l }
    requires in_bytes { InBytes c }
    ensures answers { Answers (Step.refusal (Step.protected_step head) l c (drive_of d)) result }
    ensures kept_always { KeptAlways result }
{
    checked(Status::ProtectedStep(head), l, c, d)
}

// The command whose last CCW is c at l is done, with the drive behind it: on to a place, or the end where c does not chain.
pub fn onward(l: Location, to: Location, c: Ccw, left: usize, d: Drive) -> Answer
    requires low { Low l }
    requires left_bound { left < 0x10000 }
    ensures answers { Answers (Step.onward l to c left (drive_of d)) result }
    ensures kept_with { KeptWith d result }
{
    if c.chains_command() {
        return Answer::Goes(State {
            at: to,
            last: l,
            left: left,
            drive: d,
        });
    }
    let mask = d.mask;
    Answer::Ends(End {
        csw: location::csw_at(l, channel::END_STATUS, 0, left),
        status: Status::Quiet,
        mask: mask,
    })
}
