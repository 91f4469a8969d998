// The control commands: no-operation, seek, set file mask, set sector. They move no byte of storage.
#![tactic(auto)]

ghost use Rattle.std.specs.Prelude.{◌≡◌, ◌&&◌, ◌||◌, not, ◌+◌, ◌<◌, eqb, ltb};
ghost use Rattle.address.specs.Model.{last_of};
ghost use Rattle.channel.specs.Ccw.{chains_data};
ghost use Rattle.channel.specs.Fetch.{InBytes};
ghost use Rattle.location.specs.Low.{Low};
ghost use Rattle.drive.specs.declared.Command.TheVariants as Commands;
ghost use Rattle.drive.specs.Arguments.{ArgumentIn};
ghost use Rattle.drive.specs.Step as Step;
ghost use Rattle.position.specs.Standing.{drive_of, Standing};
ghost use Rattle.command.specs.Answer.{Kept};
ghost use Rattle.control.specs.Control.{Plans, ArgumentWord, Seeks, Performs, PerformsAlways};

use address::{Address, Model};
use channel::{Ccw, Location};
use command::{Answer, Check};
use position::Drive;

// Whether a control or search command has the count that it must have, and no CD.
pub fn counted(c: Ccw, n: usize) -> bool
    ensures { result ≡ (eqb c.count n && not (chains_data c)) }
{
    if c.count != n {
        return false;
    }
    !c.chains_data()
}

// A no-operation.
pub fn no_operation(image: &[u8], l: Location, c: Ccw, d: Drive) -> Answer
    requires standing { Standing image.now d }
    requires low { Low l }
    requires in_bytes { InBytes c }
    ensures plans { Plans (Step.plan_no_operation l c (drive_of d)) result }
    ensures kept { Kept image.now result }
{
    if c.chains_data() {
        return command::refuse(Check::Rejected, l, c, d);
    }
    command::onward(l, location::next(l), c, c.count, d.at_index(image))
}

// Whether the mask forbids seeks: bits 3 and 4.
fn protects(mask: Option<u8>) -> bool
    ensures { result ≡ Step.protects mask }
{
    match mask {
        None => {
            return false;
        }
        Some(m) => {
            if base::bit(m, 3) {
                return true;
            }
            return base::bit(m, 4);
        }
    }
}

// A seek, by the first two bytes of its argument and the track that it names.
fn seek_to(m: Model, image: &[u8], zero: usize, a: Address, l: Location, c: Ccw, d: Drive) -> Answer
    requires standing { Standing image.now d }
    requires low { Low l }
    requires in_bytes { InBytes c }
    requires cylinder_bound { (a.cylinder < 65536) × (a.head < 65536) }
    ensures seeks { Seeks (last_of m) zero a l c (drive_of d) result }
    ensures kept { Kept image.now result }
{
    if zero != 0 {
        return command::refuse(Check::Rejected, l, c, d);
    }
    let on = a.on_pack(m);
    let mask = d.mask;
    let barred = protects(mask);
    if !on {
        return command::refuse(Check::Rejected, l, c, d);
    }
    if barred {
        return command::refuse(Check::Protected, l, c, d);
    }
    command::onward(l, location::next(l), c, 0, d.sought(image, a))
}

// Bytes k and k + 1 of a CCW's argument, as a number.
fn argument_word(arguments: &[u8], restart_arguments: &[u8], l: Location, c: Ccw, k: usize) -> usize
    requires argument_in { ArgumentIn arguments.now restart_arguments.now l c }
    requires k_bound { k + 1 < c.count }
    requires in_bytes { InBytes c }
    ensures upper_bound { result < 65536 }
    ensures argument_word { ArgumentWord arguments.now restart_arguments.now l c k result }
{
    let high = drive::argument_byte(arguments, restart_arguments, l, c, k);
    let low = drive::argument_byte(arguments, restart_arguments, l, c, k + 1);
    high * 256 + low
}

pub fn seek(
    m: Model,
    arguments: &[u8],
    restart_arguments: &[u8],
    image: &[u8],
    l: Location,
    c: Ccw,
    d: Drive,
) -> Answer
    requires standing { Standing image.now d }
    requires low { Low l }
    requires in_bytes { InBytes c }
    requires argument_in { ArgumentIn arguments.now restart_arguments.now l c }
    ensures performs { Performs (last_of m) arguments.now restart_arguments.now image.now l c Commands.Seek (drive_of d) result }
    ensures kept { Kept image.now result }
{
    if !counted(c, 6) {
        return command::refuse(Check::Rejected, l, c, d);
    }
    let zero = argument_word(arguments, restart_arguments, l, c, 0);
    let cylinder = argument_word(arguments, restart_arguments, l, c, 2);
    let head = argument_word(arguments, restart_arguments, l, c, 4);
    let a = Address {
        cylinder: cylinder,
        head: head,
    };
    seek_to(m, image, zero, a, l, c, d)
}

fn is_set(mask: Option<u8>) -> bool
    ensures { result ≡ Step.is_set mask }
{
    match mask {
        None => false,
        Some(_) => true,
    }
}

// A set file mask, by its argument.
fn set_mask_to(image: &[u8], m: u8, l: Location, c: Ccw, d: Drive) -> Answer
    requires standing { Standing image.now d }
    requires low { Low l }
    requires in_bytes { InBytes c }
    ensures plans { Plans (λ st. Step.plan_mask l c (drive_of d) st m) result }
    ensures kept { Kept image.now result }
{
    let mask = d.mask;
    if is_set(mask) {
        return command::refuse(Check::Rejected, l, c, d);
    }
    if !drive::settable(m) {
        return command::refuse(Check::Rejected, l, c, d);
    }
    command::onward(l, location::next(l), c, 0, d.masked(image, m))
}

pub fn set_mask(
    arguments: &[u8],
    restart_arguments: &[u8],
    image: &[u8],
    l: Location,
    c: Ccw,
    d: Drive,
) -> Answer
    requires standing { Standing image.now d }
    requires low { Low l }
    requires in_bytes { InBytes c }
    requires argument_in { ArgumentIn arguments.now restart_arguments.now l c }
    ensures performs_always { PerformsAlways arguments.now restart_arguments.now image.now l c Commands.SetMask (drive_of d) result }
    ensures kept { Kept image.now result }
{
    if !counted(c, 1) {
        return command::refuse(Check::Rejected, l, c, d);
    }
    let m = drive::argument_byte(arguments, restart_arguments, l, c, 0);
    set_mask_to(image, m as u8, l, c, d)
}

// Whether there is such a sector: 0 to 127, or 255.
fn is_sector(n: usize) -> bool
    ensures { result ≡ (ltb n 128 || eqb n 255) }
{
    if n < 128 {
        return true;
    }
    n == 255
}

pub fn set_sector(
    arguments: &[u8],
    restart_arguments: &[u8],
    image: &[u8],
    l: Location,
    c: Ccw,
    d: Drive,
) -> Answer
    requires standing { Standing image.now d }
    requires low { Low l }
    requires in_bytes { InBytes c }
    requires argument_in { ArgumentIn arguments.now restart_arguments.now l c }
    ensures performs_always { PerformsAlways arguments.now restart_arguments.now image.now l c Commands.SetSector (drive_of d) result }
    ensures kept { Kept image.now result }
{
    if !counted(c, 1) {
        return command::refuse(Check::Rejected, l, c, d);
    }
    let n = drive::argument_byte(arguments, restart_arguments, l, c, 0);
    if !is_sector(n) {
        return command::refuse(Check::Rejected, l, c, d);
    }
    command::onward(l, location::next(l), c, 0, d.at_index(image))
}
