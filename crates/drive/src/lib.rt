// The trial drive.
#![tactic(auto)]

ghost use Rattle.std.specs.Prelude.{◌≡◌, ◌<◌};
ghost use Rattle.channel.specs.Fetch.{InBytes};
ghost use Rattle.drive.specs.Command.{command_of};
ghost use Rattle.drive.specs.Step as Step;
ghost use Rattle.drive.specs.Arguments.{Insides, Argues, Sounds, ArgumentIn, ArgumentByte};

use channel::{Ccw, Location};

// What a read moves: the count area, the key, the data; and whether it takes the record whose count area was just passed.
#[derive(Clone, Copy)]
pub struct Read {
    pub just: bool,
    pub counts: bool,
    pub keys: bool,
    pub datas: bool,
}

#[derive(Clone, Copy)]
pub enum Command {
    NoOperation,
    Seek,
    SetMask,
    SetSector,
    SearchId,
    ReadHome,
    ReadRecord(Read),
    SearchIdMultitrack,
    ReadMultitrack(Read),
    Unlisted,
}

// The command of a code.
impl From<u8> for Command {
    ghost from_gives = { λ code k. k ≡ command_of code };

    fn from(code: u8) -> Command {
        match code {
            0x03 => Command::NoOperation,
            0x07 => Command::Seek,
            0x1f => Command::SetMask,
            0x23 => Command::SetSector,
            0x31 => Command::SearchId,
            0x06 => Command::ReadRecord(Read {
                just: true,
                counts: false,
                keys: false,
                datas: true,
            }),
            0x0e => Command::ReadRecord(Read {
                just: true,
                counts: false,
                keys: true,
                datas: true,
            }),
            0x12 => Command::ReadRecord(Read {
                just: false,
                counts: true,
                keys: false,
                datas: false,
            }),
            0x1e => Command::ReadRecord(Read {
                just: false,
                counts: true,
                keys: true,
                datas: true,
            }),
            0x1a => Command::ReadHome,
            0xb1 => Command::SearchIdMultitrack,
            0x86 => Command::ReadMultitrack(Read {
                just: true,
                counts: false,
                keys: false,
                datas: true,
            }),
            0x8e => Command::ReadMultitrack(Read {
                just: true,
                counts: false,
                keys: true,
                datas: true,
            }),
            0x92 => Command::ReadMultitrack(Read {
                just: false,
                counts: true,
                keys: false,
                datas: false,
            }),
            0x9e => Command::ReadMultitrack(Read {
                just: false,
                counts: true,
                keys: true,
                datas: true,
            }),
            _ => Command::Unlisted,
        }
    }
}

// Whether a byte may be a file mask: bits 2, 5 and 6 are off.
pub fn settable(m: u8) -> bool
    ensures { result ≡ Step.settable m }
{
    if base::bit(m, 2) {
        return false;
    }
    if base::bit(m, 5) {
        return false;
    }
    !base::bit(m, 6)
}

// Whether a CCW's argument is wholly in its area, with arguments and restart arguments of these lengths.
fn argument_inside(l: Location, c: Ccw, arguments: usize, restart_arguments: usize) -> bool
    requires { InBytes c }
    ensures { Insides arguments restart_arguments l c result }
{
    match l {
        Location::Chain(_) => {
            return c.address + c.count <= arguments;
        }
        Location::Restart(_) => {
            if c.address < 0x2000 {
                return false;
            }
            return c.address - 0x2000 + c.count <= restart_arguments;
        }
    }
}

// Whether a control or search command with an argument makes no program check.
fn argument_sound(l: Location, c: Ccw, arguments: usize, restart_arguments: usize) -> bool
    requires { InBytes c }
    ensures { Argues arguments restart_arguments l c result }
{
    if !c.formed() {
        return false;
    }
    argument_inside(l, c, arguments, restart_arguments)
}

// Whether a CCW that is command k makes no program check, with storage of `size` bytes.
pub fn sound(
    l: Location,
    c: Ccw,
    k: Command,
    arguments: usize,
    restart_arguments: usize,
    size: usize,
) -> bool
    requires { InBytes c }
    ensures { Sounds arguments restart_arguments l size c k result }
{
    match k {
        Command::NoOperation => c.formed(),
        Command::Unlisted => c.formed(),
        Command::Seek => argument_sound(l, c, arguments, restart_arguments),
        Command::SetMask => argument_sound(l, c, arguments, restart_arguments),
        Command::SetSector => argument_sound(l, c, arguments, restart_arguments),
        Command::SearchId => argument_sound(l, c, arguments, restart_arguments),
        Command::ReadHome => c.readable(size),
        Command::ReadRecord(_) => c.readable(size),
        Command::SearchIdMultitrack => argument_sound(l, c, arguments, restart_arguments),
        Command::ReadMultitrack(_) => c.readable(size),
    }
}

// Byte k of a CCW's argument.
pub fn argument_byte(
    arguments: &[u8],
    restart_arguments: &[u8],
    l: Location,
    c: Ccw,
    k: usize,
) -> usize
    requires argument_in { ArgumentIn arguments.now restart_arguments.now l c }
    requires k_lt_count { k < c.count }
    requires in_bytes { InBytes c }
    ensures upper_bound { result < 256 }
    ensures argument_byte { ArgumentByte arguments.now restart_arguments.now l c k result }
{
    match l {
        Location::Chain(_) => base::byte(arguments, c.address + k),
        Location::Restart(_) => base::byte(restart_arguments, c.address - 0x2000 + k),
    }
}
