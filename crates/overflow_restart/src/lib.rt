// The restart inside an overflow record: restart CCW 1 for the rest of the CCW that was interrupted, and the last TIC.
#![tactic(auto)]

ghost use Rattle.std.specs.Prelude.{◌≡◌, true, ◌||◌, ◌-◌, ◌≤◌, length};
ghost use Rattle.base.specs.Choice.{pick};
ghost use Rattle.channel.specs.Ccw.{chains_data, chains_command, skips};
ghost use Rattle.channel.specs.Fetch.{InBytes};
ghost use Rattle.channel.specs.Walk.{readable};
ghost use Rattle.restart_areas.specs.Placed.{TicLow};
ghost use Rattle.decision.specs.Decision.{GoesLow};
ghost use Rattle.overflow_restart.specs.Restart.{Interrupted, OverflowRestarts, GoesFrom};

use address::Address;
use channel::{Ccw, Location};
use decision::{Decision, OverflowPlan};
use questions::Question;
use recovered::{Kind, Recovered};

// Where a data chain ended: its last CCW, and the count left there.
#[derive(Clone, Copy)]
pub struct WalkEnd {
    pub at: Location,
    pub ccw: Ccw,
    pub left: usize,
}

// By how much restart CCW 1 begins behind the CCW c, of which this count is left: the bytes taken; under skip by nothing.
fn moved_on(c: Ccw, left: usize) -> usize
    requires { left ≤ c.count }
    ensures { result ≡ pick (skips c) 0 (c.count - left) }
{
    if c.skips() {
        return 0;
    }
    c.count - left
}

// The restart to track a that goes on with the rest of the CCW c, of which this count is left.
fn resume(
    mask: Option<u8>,
    a: Address,
    kind: Kind,
    c: Ccw,
    left: usize,
    tic: Option<usize>,
) -> Decision
    requires in_bytes { InBytes c }
    requires c_value { readable 65536 c ≡ true }
    requires left_le_count { left ≤ c.count }
    requires tic_low { TicLow tic }
    ensures overflow_restarts { OverflowRestarts mask a kind c left tic result }
    ensures goes_low { GoesLow result }
{
    let first = Ccw {
        command: 0x06,
        address: c.address + moved_on(c, left),
        flags: c.flags,
        count: left,
    };
    Decision::Resumes(OverflowPlan {
        track: a,
        mask: mask,
        kind: kind,
        first: first,
        tic: tic,
    })
}

// Whether a CCW chains, by CD or by CC.
fn chains(c: Ccw) -> bool
    ensures { result ≡ (chains_data c || chains_command c) }
{
    if c.chains_data() {
        return true;
    }
    c.chains_command()
}

// The restart from the CCW on that was interrupted.
pub fn from_interrupted(
    chain: &[u8],
    mask: Option<u8>,
    a: Address,
    kind: Kind,
    e: WalkEnd,
) -> Decision
    requires chain_len_bound { length chain.now ≤ 2048 }
    requires interrupted { Interrupted chain.now e }
    ensures goes_from { GoesFrom chain.now mask a kind e result }
    ensures goes_low { GoesLow result }
{
    let l = e.at;
    let c = e.ccw;
    if !chains(c) {
        return resume(mask, a, kind, c, e.left, None);
    }
    let behind = location::next(l);
    match channel::resolve(chain, &chain[..0], l, behind) {
        Err(_) => Decision::Answers(Recovered::Refused(Question::Agreement)),
        Ok((to, _)) => match to {
            Location::Restart(_) => Decision::Answers(Recovered::Refused(Question::Agreement)),
            Location::Chain(at) => resume(mask, a, kind, c, e.left, Some(at)),
        },
    }
}
