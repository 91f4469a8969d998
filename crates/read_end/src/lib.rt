// What a read comes to where its data chain ended.
#![tactic(auto)]

ghost use Rattle.std.specs.Prelude.{◌≡◌};
ghost use Rattle.drive.specs.Step.{length_status};
ghost use Rattle.position.specs.Standing.{drive_of};
ghost use Rattle.command.specs.Answer.{KeptWith, KeptAlways};
ghost use Rattle.read_end.specs.ReadEnd.{LowMoved, FaultedLow, Settles, Excepts, CutsOff};

use address::Address;
use base::FromFront;
use channel::Location;
use command::{Answer, Cut, End, Status};
use faults::Listed;
use pack::Place;
use position::Drive;
use transfer::Moved;

// The channel status at a read's end.
fn length_status(wrong: bool) -> u8
    ensures { result ≡ length_status wrong }
{
    if wrong {
        return channel::INCORRECT_LENGTH;
    }
    0
}

// A read without fault, with the drive behind it: incorrect length ends the chain.
pub fn settled(m: Result<Moved, Location>, d: Drive) -> Answer
    requires { LowMoved m }
    ensures settles { Settles (drive_of d) m result }
    ensures kept_with { KeptWith d result }
{
    match m {
        Err(l) => {
            return command::program_check(l, d);
        }
        Ok(
            Moved {
                at,
                ccw,
                left,
                over,
            },
        ) => {
            if ccw.incorrect_length(left, over) {
                let mask = d.mask;
                return Answer::Ends(End {
                    csw: location::csw_at(at, channel::END_STATUS, channel::INCORRECT_LENGTH, left),
                    status: Status::Quiet,
                    mask: mask,
                });
            }
            return command::onward(at, location::next(at), ccw, left, d);
        }
    }
}

// A read of a data area of length 0: unit exception.
pub fn excepted(m: Result<Moved, Location>, d: Drive) -> Answer
    requires { LowMoved m }
    ensures excepts { Excepts (drive_of d) m result }
    ensures kept_always { KeptAlways result }
{
    match m {
        Err(l) => {
            return command::program_check(l, d);
        }
        Ok(
            Moved {
                at,
                ccw,
                left,
                over,
            },
        ) => {
            let status = length_status(ccw.incorrect_length(left, over));
            let mask = d.mask;
            return Answer::Ends(End {
                csw: location::csw_at(
                    at,
                    channel::END_STATUS | channel::UNIT_EXCEPTION,
                    status,
                    left,
                ),
                status: Status::Quiet,
                mask: mask,
            });
        }
    }
}

// A read of `length` bytes that ends with a faulted data area: a cut, unless a program check came first.
pub fn faulted(
    m: Result<Moved, Location>,
    first: Location,
    p: Place,
    f: Listed,
    length: usize,
    d: Drive,
) -> Answer
    requires low_moved { LowMoved m }
    requires faulted_low { FaultedLow first p f length }
    ensures cuts_off { CutsOff first p f length (drive_of d) m result }
    ensures kept_always { KeptAlways result }
{
    match m {
        Err(l) => {
            return command::program_check(l, d);
        }
        Ok(
            Moved {
                at,
                ccw,
                left,
                over,
            },
        ) => {
            let status = length_status(ccw.incorrect_length(left, over));
            let mask = d.mask;
            let track: Address = p.at;
            let error = f.displacement;
            return Answer::Cuts(Cut {
                at: track,
                r: p.r,
                restart: FromFront(length),
                error: error,
                pattern0: f.first,
                pattern1: f.second,
                pattern2: f.third,
                over: over,
                first: first,
                mask: mask,
                csw: location::csw_at(at, channel::END_STATUS | channel::UNIT_CHECK, status, left),
            });
        }
    }
}
