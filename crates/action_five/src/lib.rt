// Action 5: what is decided by the report of a correctable data check.
#![tactic(auto)]

ghost use Rattle.std.specs.Prelude.{◌≡◌, ◌||◌, not, [], ◌<◌, ◌≤◌, length};
ghost use Rattle.channel.specs.declared.Location.TheVariants.{Chain};
ghost use Rattle.channel.specs.Ccw.{chains_command};
ghost use Rattle.channel.specs.Fetch.{InBytes, Inside};
ghost use Rattle.restart.specs.Restart.{count_for};
ghost use Rattle.recovery.specs.Recovery as Recovery;
ghost use Rattle.decision.specs.Decision.{Decides, GoesLow};
ghost use Rattle.recovered.specs.Sensible.{InBounds};
ghost use Rattle.action_five.specs.Five.{correction_of, search_kind, SearchRestarts, GoesOn, AfterWalk, WalkedTo, DecidesRetraced};

use channel::{Ccw, Location};
use correction::{Correction, End, ThreeStayed};
use decision::{Decision, RestartPlan};
use drive::Command;
use questions::Question;
use recovered::{Kind, Recovered};
use report::{Sense, Told};
use restart::ReadCount;

// The pattern of the sense bytes, for the bytes that stayed.
fn pattern(s: Sense, stayed: ThreeStayed) -> Correction
    ensures { result ≡ correction_of s stayed }
{
    Correction {
        stayed: stayed,
        pattern0: s.pattern0,
        pattern1: s.pattern1,
        pattern2: s.pattern2,
    }
}

// Action 5, or 5A, by the CCW that the restart goes on with.
fn search_kind(d: Ccw) -> Kind
    ensures { result ≡ search_kind d }
{
    if base::bit(d.command, 3) {
        return Kind::Five;
    }
    Kind::FiveA
}

// The read count before that CCW.
fn read_count(d: Ccw) -> ReadCount
    ensures { result ≡ count_for d.command }
{
    let code = d.command;
    if base::bit(code, 3) {
        return ReadCount::Omitted;
    }
    match code {
        0x86 => ReadCount::Multitrack,
        0x8e => ReadCount::Multitrack,
        _ => ReadCount::Single,
    }
}

// The restart that goes on with the CCW d at an address of the chain.
fn search_restart(t: Told, stayed: ThreeStayed, to: usize, d: Ccw) -> Decision
    requires { to < 65536 }
    ensures search_restarts { SearchRestarts t stayed to d result }
    ensures goes_low { GoesLow result }
{
    let s = t.sense;
    let mask = t.mask;
    let track = s.track;
    let plan = RestartPlan {
        kind: search_kind(d),
        counts: read_count(d),
        track: track,
        mask: mask,
        sector: s.sector,
        number: s.number,
        to: to,
    };
    Decision::Restarts(plan, pattern(s, stayed))
}

// The restart that goes on behind the CCW at l.
fn go_on(chain: &[u8], t: Told, stayed: ThreeStayed, l: Location) -> Decision
    requires chain_len_bound { length chain.now ≤ 2048 }
    requires inside { Inside chain.now [] l }
    ensures goes_on { GoesOn chain.now t stayed l result }
    ensures goes_low { GoesLow result }
{
    match channel::resolve(chain, &chain[..0], l, location::next(l)) {
        Err(_) => Decision::Answers(Recovered::Refused(Question::Agreement)),
        Ok((to, d)) => match to {
            Location::Restart(_) => Decision::Answers(Recovered::Refused(Question::Agreement)),
            Location::Chain(a) => search_restart(t, stayed, a, d),
        },
    }
}

// Whether the chain ends with a read whose last CCW is c: by its length, or for want of CC.
fn ends(c: Ccw, wrong: bool) -> bool
    ensures { result ≡ (wrong || not (chains_command c)) }
{
    if wrong {
        return true;
    }
    !c.chains_command()
}

// Where the data chain ended so, and the CSW agrees.
fn after_walk(chain: &[u8], t: Told, e: End, wrong: bool) -> Decision
    requires chain_len_bound { length chain.now ≤ 2048 }
    requires inside { Inside chain.now [] e.at }
    ensures after_walk { AfterWalk chain.now t e wrong result }
    ensures goes_low { GoesLow result }
{
    let s = t.sense;
    let csw = t.csw;
    let mask = t.mask;
    let c = e.ccw;
    let l = e.at;
    let stayed = e.stayed;
    if recovered::fetch_mode(mask) {
        return Decision::Corrects(Recovered::CorrectedOnly, pattern(s, stayed));
    }
    if ends(c, wrong) {
        return Decision::Corrects(
            Recovered::Finished(recovered::less_unit_check(csw)),
            pattern(s, stayed),
        );
    }
    go_on(chain, t, stayed, l)
}

// Where it ended so, and the CSW has yet to agree.
fn walked_to(chain: &[u8], t: Told, e: End) -> Decision
    requires chain_len_bound { length chain.now ≤ 2048 }
    requires inside { Inside chain.now [] e.at }
    ensures walked_to { WalkedTo chain.now t e result }
    ensures goes_low { GoesLow result }
{
    let csw = t.csw;
    let c = e.ccw;
    let l = e.at;
    let wrong = c.incorrect_length(e.left, e.over);
    if !recovered::agrees(csw, l, e.left, wrong) {
        return Decision::Answers(Recovered::Refused(Question::Agreement));
    }
    after_walk(chain, t, e, wrong)
}

// The read that begins with the CCW c, retraced with storage of `size` bytes.
fn retraced(chain: &[u8], size: usize, t: Told, c: Ccw) -> Decision
    requires chain_len_bound { length chain.now ≤ 2048 }
    requires inside { Inside chain.now [] (Chain t.first) }
    requires in_bytes { InBytes c }
    requires in_bounds { InBounds t.sense }
    ensures decides_retraced { DecidesRetraced chain.now size t c result }
    ensures goes_low { GoesLow result }
{
    if !c.readable(size) {
        return Decision::Answers(Recovered::Refused(Question::Agreement));
    }
    let s = t.sense;
    let restart = s.restart;
    let error = s.error;
    let k = error.from_front(restart).0;
    match correction::retrace(chain, size, Location::Chain(t.first), c, restart.0, k) {
        None => Decision::Answers(Recovered::Refused(Question::Agreement)),
        Some(e) => walked_to(chain, t, e),
    }
}

// Action 5.
pub fn five(chain: &[u8], size: usize, t: Told) -> Decision
    requires { length chain.now ≤ 2048 }
    ensures decides { Decides Recovery.action_five chain.now size t result }
    ensures goes_low { GoesLow result }
{
    let s = t.sense;
    if s.format != 0x53 {
        return Decision::Answers(Recovered::Refused(Question::Format));
    }
    let Some(c) = channel::fetch(chain, &chain[..0], Location::Chain(t.first)) else {
        return Decision::Answers(Recovered::Refused(Question::Agreement));
    };
    if !recovered::reads_data(Command::from(c.command)) {
        return Decision::Answers(Recovered::Refused(Question::Agreement));
    }
    if !recovered::sensible(s) {
        return Decision::Answers(Recovered::Refused(Question::Agreement));
    }
    retraced(chain, size, t, c)
}
