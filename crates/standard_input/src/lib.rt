// Standard input into a lent area.
#![tactic(auto)]

ghost use Rattle.standard_input.specs.Received.{Within, IsFront, Leaves};

use std::io::{self, Read};

// Reads until the area is full or the input ends, and says how many bytes were read.
pub fn receive<R: Read>(from: &mut R, to: &mut [u8]) -> io::Result<usize>
    ensures within { Within result to.new }
    ensures front { IsFront (R.remaining from.old) result to.new }
    ensures rest { Leaves (R.remaining from.old) (R.remaining from.new) result to.new }
{
    let mut done = 0;
    while done < to.len() {
        let more = from.read(&mut to[done..])?;
        if more == 0 {
            return Ok(done);
        }
        done += more;
    }
    Ok(done)
}

#[cfg(test)]
mod tests;
