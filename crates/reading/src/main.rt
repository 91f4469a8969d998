// The program: reads standard input to its end, does the reading, and prints its lines on standard output. What is proved holds for every
// reader and writer that tell their bytes; of those of the system no contract says what they give or take.
#![tactic(auto)]

ghost use Rattle.std.specs.Prelude.{◌≡◌, ◌≤◌, length, take};
ghost use Rattle.reading_session.specs.Session.{printed};
ghost use Rattle.reading.specs.Printing.{Prints};

use std::fmt;
use std::io::{self, Error, Read, Write};

// The text for an input, at the front of an area; how many bytes it has.
fn answer(input: &[u8], out: &mut [u8; reading_lines::ROOM]) -> usize
    ensures out_after { take result out.new ≡ printed input.now }
    ensures in_bounds { result ≤ length out.new }
{
    let mut storage = [0u8; 4096];
    reading_session::run(input, &mut storage, out)
}

// Why a run failed: a read or a write did.
#[derive(Drop)]
enum Failed {
    Read(Error),
    Write(Error),
}

impl fmt::Display for Failed {
    fn fmt<W: fmt::Write>(&self, f: &mut fmt::Formatter<W>) -> fmt::Result {
        match self {
            Failed::Read(error) => write!(f, "standard input: {error}"),
            Failed::Write(error) => write!(f, "standard output: {error}"),
        }
    }
}

// Reads an input to its end, and writes the text for it. One of more than 60,000 bytes is refused, so one byte more is read and no further
// one. Where a read fails, nothing is written.
fn read_and_print<R: Read, W: Write>(from: &mut R, to: &mut W) -> Result<(), Failed>
    ensures { Prints (R.remaining from.old) (W.contents to.old) (W.contents to.new) result }
{
    let mut input = [0u8; 60001];
    let n = match standard_input::receive(from, &mut input) {
        Ok(n) => n,
        Err(error) => return Err(Failed::Read(error)),
    };
    let mut out = [0u8; reading_lines::ROOM];
    let length = answer(&input[..n], &mut out);
    match to.write_all(&out[..length]) {
        Ok(()) => Ok(()),
        Err(error) => Err(Failed::Write(error)),
    }
}

// A read or a write that fails is told on standard error.
fn main(rt: HostRuntime) -> io::Result<()> {
    match read_and_print(&mut rt.stdin(), &mut rt.stdout()) {
        Ok(()) => Ok(()),
        Err(failed) => eprintln!(rt; "{failed}"),
    }
}
