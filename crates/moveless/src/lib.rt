// Search ID equal, and whichever command moves no byte of storage.
#![tactic(auto)]

ghost use Rattle.std.specs.Prelude.{◌≡◌, true};
ghost use Rattle.address.specs.Model.{last_of};
ghost use Rattle.channel.specs.Fetch.{InBytes};
ghost use Rattle.location.specs.Low.{Low};
ghost use Rattle.drive.specs.declared.Command.TheVariants as Commands;
ghost use Rattle.drive.specs.Arguments.{ArgumentIn};
ghost use Rattle.position.specs.Standing.{drive_of, Standing, search_plan};
ghost use Rattle.command.specs.Answer.{Kept, KeptBehind};
ghost use Rattle.control.specs.Control.{Plans, Performs, PerformsAlways, moveless, argues};

use address::Model;
use channel::{Ccw, Location};
use command::{Answer, Check};
use drive::Command;
use position::{Drive, Examined};

// A search's answer, of what it examined on the drive d. An equal one skips a CCW.
fn searched(x: Examined, l: Location, c: Ccw, d: Drive) -> Answer
    requires low { Low l }
    requires in_bytes { InBytes c }
    ensures plans { Plans (λ st. search_plan l c (drive_of d) st x) result }
    ensures kept_behind { KeptBehind x result }
{
    match x {
        Examined::Equal(e) => command::onward(l, location::next(location::next(l)), c, 0, e),
        Examined::Unequal(e) => command::onward(l, location::next(l), c, 0, e),
        Examined::Passed => command::refuse(Check::NotFound, l, c, d),
    }
}

fn search(
    arguments: &[u8],
    restart_arguments: &[u8],
    image: &[u8],
    l: Location,
    c: Ccw,
    d: Drive,
) -> Answer
    requires standing { Standing image.now d }
    requires low { Low l }
    requires in_bytes { InBytes c }
    requires argument_in { ArgumentIn arguments.now restart_arguments.now l c }
    ensures performs_always { PerformsAlways arguments.now restart_arguments.now image.now l c Commands.SearchId (drive_of d) result }
    ensures kept { Kept image.now result }
{
    if !control::counted(c, 5) {
        return command::refuse(Check::Rejected, l, c, d);
    }
    let b0 = drive::argument_byte(arguments, restart_arguments, l, c, 0);
    let b1 = drive::argument_byte(arguments, restart_arguments, l, c, 1);
    let b2 = drive::argument_byte(arguments, restart_arguments, l, c, 2);
    let b3 = drive::argument_byte(arguments, restart_arguments, l, c, 3);
    let b4 = drive::argument_byte(arguments, restart_arguments, l, c, 4);
    searched(d.examine(image, b0, b1, b2, b3, b4), l, c, d)
}

// A command that moves no byte, which makes no program check.
pub fn perform(
    m: Model,
    arguments: &[u8],
    restart_arguments: &[u8],
    image: &[u8],
    l: Location,
    c: Ccw,
    k: Command,
    d: Drive,
) -> Answer
    requires standing { Standing image.now d }
    requires low { Low l }
    requires in_bytes { InBytes c }
    requires k_value { moveless k ≡ true }
    requires argument_in { argues k ≡ true → ArgumentIn arguments.now restart_arguments.now l c }
    ensures performs { Performs (last_of m) arguments.now restart_arguments.now image.now l c k (drive_of d) result }
    ensures kept { Kept image.now result }
{
    match k {
        Command::NoOperation => control::no_operation(image, l, c, d),
        Command::Seek => control::seek(m, arguments, restart_arguments, image, l, c, d),
        Command::SetMask => control::set_mask(arguments, restart_arguments, image, l, c, d),
        Command::SetSector => control::set_sector(arguments, restart_arguments, image, l, c, d),
        Command::SearchId => search(arguments, restart_arguments, image, l, c, d),
        Command::Unlisted => command::refuse(Check::Rejected, l, c, d),
        Command::ReadHome => command::refuse(Check::Rejected, l, c, d),
        Command::ReadRecord(_) => command::refuse(Check::Rejected, l, c, d),
        Command::SearchIdMultitrack => command::refuse(Check::Rejected, l, c, d),
        Command::ReadMultitrack(_) => command::refuse(Check::Rejected, l, c, d),
    }
}
