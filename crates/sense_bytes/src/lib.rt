// The 24 sense bytes, at the front of what is lent.
#![tactic(auto)]

ghost use Rattle.std.specs.Prelude.{◌≡◌, [], ◌∷◌, ◌++◌, ◌≤◌, length, drop, replicate};
ghost use Rattle.base.specs.Choice.{pick};
ghost use Rattle.drive.specs.Step as Step;
ghost use Rattle.command.specs.Answer.{sense_of, cut_of, CutLow};

use address::Address;
use base::{FromEnd, FromFront};
use command::{Check, Cut, Status};

// 24 sense bytes of which only 0, 1 and 6 are not 0.
fn put_check(to: &mut [u8], byte0: u8, byte1: u8, byte6: u8)
    requires { 24 ≤ length to.old }
    ensures { to.new ≡ (byte0 ∷ byte1 ∷ 0 ∷ 0 ∷ 0 ∷ 0 ∷ byte6 ∷ replicate 17 0) ++ drop 24 to.old }
{
    copy::put(
        to,
        &[
            byte0, byte1, 0, 0, 0, 0, byte6, 0, 0, 0, 0, 0, 0, 0, 0, 0, 0, 0, 0, 0, 0, 0, 0, 0,
        ],
    );
}

// The sense of an end that no faulted data area made.
pub fn put_status(to: &mut [u8], s: Status)
    requires { 24 ≤ length to.old }
    ensures { to.new ≡ sense_of s ++ drop 24 to.old }
{
    match s {
        Status::Quiet => put_check(to, 0, 0, 0),
        Status::Refused(k) => match k {
            Check::Rejected => put_check(to, 0x80, 0, 0),
            Check::NotFound => put_check(to, 0, 0x08, 0),
            Check::Protected => put_check(to, 0, 0x04, 0),
            Check::EndOfCylinder => put_check(to, 0, 0x20, 0),
        },
        Status::ProtectedStep(head) => put_check(to, 0, 0x04, head),
    }
}

// Bit 7 of the last sense byte: whether the count ran out first.
fn over_bit(over: bool) -> u8
    ensures { result ≡ pick over 1 0 }
{
    if over {
        return 1;
    }
    0
}

// The sense of a cut.
pub fn put_cut_sense(to: &mut [u8], k: Cut)
    requires in_bounds { 24 ≤ length to.old }
    requires cut_low { CutLow k }
    ensures { to.new ≡ Step.cut_sense (cut_of k []) ++ drop 24 to.old }
{
    let at: Address = k.at;
    let restart: FromFront = k.restart;
    let error: FromEnd = k.error;
    copy::put(
        to,
        &[
            0x08,
            0,
            0x40,
            0,
            0,
            0,
            0,
            0x53,
            (at.cylinder / 256) as u8,
            (at.cylinder % 256) as u8,
            (at.head / 256) as u8,
            (at.head % 256) as u8,
            k.r as u8,
            0,
            0,
            (restart.0 / 65536) as u8,
            (restart.0 / 256 % 256) as u8,
            (restart.0 % 256) as u8,
            (error.0 / 256) as u8,
            (error.0 % 256) as u8,
            k.pattern0,
            k.pattern1,
            k.pattern2,
            over_bit(k.over),
        ],
    );
}
