// Actions 9 and 11: whether report and chain agree on where a read of an overflow record was cut, and the restart from there.
#![tactic(auto)]

ghost use Rattle.std.specs.Prelude.{◌≡◌, true, [], ◌≤◌, length};
ghost use Rattle.location.specs.Low.{Low};
ghost use Rattle.channel.specs.Fetch.{InBytes, Inside};
ghost use Rattle.channel.specs.Walk.{readable};
ghost use Rattle.recovery.specs.Recovery as Recovery;
ghost use Rattle.report.specs.Told.{ToldLow};
ghost use Rattle.decision.specs.Decision.{Decides, GoesLow};
ghost use Rattle.action_nine_eleven.specs.NineEleven.{WalksTo, EndUsable, WalkedTo, Overflows};

use address::Address;
use channel::{Ccw, Csw, Location};
use decision::Decision;
use drive::Command;
use overflow_restart::WalkEnd;
use questions::Question;
use recovered::{Kind, Recovered};
use report::Told;

// A read of n bytes whose first CCW, which a read may use with storage of `size` bytes, is c at l.
fn walk_end(chain: &[u8], size: usize, l: Location, c: Ccw, n: usize) -> Option<WalkEnd>
    requires inside { Inside chain.now [] l }
    requires in_bytes { InBytes c }
    requires c_value { readable size c ≡ true }
    requires size_bound { size ≤ 65536 }
    ensures walks_to { WalksTo chain.now size l c n result }
    ensures end_usable { EndUsable chain.now result }
{
    let mut here = l;
    let mut word = c;
    let mut more = n;
    loop {
        if correction::last_of(word, more) {
            return Some(WalkEnd {
                at: here,
                ccw: word,
                left: word.count - correction::lesser(more, word.count),
            });
        }
        more -= word.count;
        match correction::next_usable(chain, size, here) {
            Err(_) => {
                return None;
            }
            Ok((x, e)) => {
                here = x;
                word = e;
            }
        }
    }
}

// ---- report and chain

// Whether the CSW shows this CCW, and a count left there that is not 0.
fn cut_inside(w: Csw, l: Location, left: usize) -> bool
    requires { Low l }
    ensures { result ≡ Recovery.cut_inside w l left }
{
    if w.address != location::address_of(l) + 8 {
        return false;
    }
    if w.count != left {
        return false;
    }
    left != 0
}

// Where the data chain ended so, and the CSW has yet to agree.
fn walked_to(
    chain: &[u8],
    csw: Csw,
    mask: Option<u8>,
    a: Address,
    kind: Kind,
    w: Option<WalkEnd>,
) -> Decision
    requires chain_len_bound { length chain.now ≤ 2048 }
    requires end_usable { EndUsable chain.now w }
    ensures walked_to { WalkedTo chain.now csw mask a kind w result }
    ensures goes_low { GoesLow result }
{
    let Some(e) = w else {
        return Decision::Answers(Recovered::Refused(Question::Agreement));
    };
    let l = e.at;
    if !cut_inside(csw, l, e.left) {
        return Decision::Answers(Recovered::Refused(Question::Agreement));
    }
    overflow_restart::from_interrupted(chain, mask, a, kind, e)
}

// The restart to track a, by the read's first CCW and its data chain.
fn overflow_at(chain: &[u8], size: usize, t: Told, a: Address, kind: Kind) -> Decision
    requires chain_len_bound { length chain.now ≤ 2048 }
    requires size_bound { size ≤ 65536 }
    ensures overflows { Overflows chain.now size t a kind result }
    ensures goes_low { GoesLow result }
{
    let s = t.sense;
    let csw = t.csw;
    let mask = t.mask;
    let restart = s.restart;
    let first = Location::Chain(t.first);
    let Some(c) = channel::fetch(chain, &chain[..0], first) else {
        return Decision::Answers(Recovered::Refused(Question::Agreement));
    };
    if !recovered::reads_data(Command::from(c.command)) {
        return Decision::Answers(Recovered::Refused(Question::Agreement));
    }
    if s.byte3 != 0x06 {
        return Decision::Answers(Recovered::Refused(Question::Agreement));
    }
    if !c.readable(size) {
        return Decision::Answers(Recovered::Refused(Question::Agreement));
    }
    let w = walk_end(chain, size, first, c, restart.0);
    walked_to(chain, csw, mask, a, kind, w)
}

// ---- the actions

// Action 9: the next cylinder, head 0.
pub fn nine(chain: &[u8], size: usize, t: Told) -> Decision
    requires chain_len_bound { length chain.now ≤ 2048 }
    requires size_bound { size ≤ 65536 }
    requires told_low { ToldLow t }
    ensures decides { Decides Recovery.action_nine chain.now size t result }
    ensures goes_low { GoesLow result }
{
    let user = t.user;
    let Some(a) = user else {
        return Decision::Answers(Recovered::Refused(Question::Agreement));
    };
    overflow_at(
        chain,
        size,
        t,
        action_eight_ten::next_cylinder(a),
        Kind::Nine,
    )
}

// Action 11: the track behind the head reached, on the user's cylinder.
pub fn eleven(chain: &[u8], size: usize, t: Told) -> Decision
    requires chain_len_bound { length chain.now ≤ 2048 }
    requires size_bound { size ≤ 65536 }
    requires told_low { ToldLow t }
    ensures decides { Decides Recovery.action_eleven chain.now size t result }
    ensures goes_low { GoesLow result }
{
    let user = t.user;
    let sense = t.sense;
    let Some(a) = user else {
        return Decision::Answers(Recovered::Refused(Question::Agreement));
    };
    if 18 < sense.head {
        return Decision::Answers(Recovered::Refused(Question::Agreement));
    }
    let b = Address {
        cylinder: a.cylinder,
        head: sense.head,
    };
    overflow_at(
        chain,
        size,
        t,
        action_eight_ten::next_track(b),
        Kind::Eleven,
    )
}
