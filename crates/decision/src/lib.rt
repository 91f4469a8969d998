// What recovery decides, by value; whether its restart is allowed; and the one function that writes: a decision carried out.
#![tactic(auto)]

ghost use Rattle.std.specs.Prelude.{◌≡◌, [], length};
ghost use Rattle.recovered.specs.Applied.{with};
ghost use Rattle.restart.specs.Restart.{overflow_program, restart_arguments_of};
ghost use Rattle.decision.specs.Decision.{orientation_of, program_for, arguments_for, done, bounded, PlanLow, OverflowLow, GoesLow, DecisionLow};

use address::{Address, Extent};
use channel::Ccw;
use correction::Correction;
use recovered::{Kind, Recovered};
use restart::ReadCount;

// How a restart comes to its record: by a search for its ID, with the read count behind it; or from the home address on.
#[derive(Clone, Copy)]
pub enum Orientation {
    Search(ReadCount),
    Home,
}

// A restart: which; its track, mask, sector, record number and read count; and the address of the chain's CCW that it goes on with.
#[derive(Clone, Copy)]
pub struct RestartPlan {
    pub to: usize,
    pub track: Address,
    pub mask: Option<u8>,
    pub kind: Kind,
    pub counts: ReadCount,
    pub sector: u8,
    pub number: u8,
}

// A restart inside an overflow record: which; its track and mask; restart CCW 1; and the last TIC.
#[derive(Clone, Copy)]
pub struct OverflowPlan {
    pub track: Address,
    pub mask: Option<u8>,
    pub kind: Kind,
    pub first: Ccw,
    pub tic: Option<usize>,
}

// What is to be done: an answer and nothing written; an answer, and storage corrected; a restart, and storage corrected; a restart
// inside an overflow record.
#[derive(Clone, Copy)]
pub enum Decision {
    Answers(Recovered),
    Corrects(Recovered, Correction),
    Restarts(RestartPlan, Correction),
    Resumes(OverflowPlan),
}

// The decision itself; for a restart whose seek lies off the pack or outside the extent, action 2 and nothing written.
pub fn bound(x: Extent, d: Decision) -> Decision
    requires { GoesLow d }
    ensures value { result ≡ bounded x d }
    ensures decision_low { DecisionLow result }
{
    match d {
        Decision::Restarts(q, c) => {
            let track = q.track;
            if recovered::seek_allowed(x, track) {
                return Decision::Restarts(q, c);
            }
            return Decision::Answers(Recovered::ActionTwo);
        }
        Decision::Resumes(q) => {
            let track = q.track;
            if recovered::seek_allowed(x, track) {
                return Decision::Resumes(q);
            }
            return Decision::Answers(Recovered::ActionTwo);
        }
        _ => {
            return d;
        }
    }
}

// ---- a decision carried out

// How a restart of this kind comes to its record, with this read count.
fn orient(kind: Kind, counts: ReadCount) -> Orientation
    ensures { result ≡ orientation_of kind counts }
{
    match kind {
        Kind::Five => Orientation::Search(counts),
        Kind::FiveA => Orientation::Search(counts),
        Kind::Eight => Orientation::Home,
        Kind::Nine => Orientation::Home,
        Kind::Ten => Orientation::Home,
        Kind::TenA => Orientation::Home,
        Kind::Eleven => Orientation::Home,
    }
}

// The restart program and its arguments.
fn put_restart(program: &mut [u8], restart_arguments: &mut [u8], q: RestartPlan)
    requires program_len { length program.old ≡ 64 }
    requires restart_arguments_len { length restart_arguments.old ≡ 16 }
    requires plan_low { PlanLow q }
    ensures program_after { program.new ≡ program_for q }
    ensures restart_arguments_after { restart_arguments.new ≡ arguments_for q }
{
    let kind = q.kind;
    let counts = q.counts;
    let mask = q.mask;
    let track = q.track;
    match orient(kind, counts) {
        Orientation::Search(found) => {
            restart_areas::search_program(program, mask, found, q.to);
            restart_areas::search_arguments(restart_arguments, track, mask, q.sector, q.number);
        }
        Orientation::Home => {
            restart_areas::home_program(program, mask, q.to);
            restart_areas::begin_arguments(restart_arguments, track, mask, 0);
        }
    }
}

// The same of a restart inside an overflow record.
fn put_overflow(program: &mut [u8], restart_arguments: &mut [u8], q: OverflowPlan)
    requires program_len { length program.old ≡ 64 }
    requires restart_arguments_len { length restart_arguments.old ≡ 16 }
    requires overflow_low { OverflowLow q }
    ensures program_after { program.new ≡ overflow_program q.mask q.first q.tic }
    ensures restart_arguments_after { restart_arguments.new ≡ restart_arguments_of q.track q.mask 0 [] }
{
    let mask = q.mask;
    let track = q.track;
    let first = q.first;
    let tic = q.tic;
    restart_areas::overflow_program(program, mask, first, tic);
    restart_areas::begin_arguments(restart_arguments, track, mask, 0);
}

// Storage and the restart areas as a decision has them, and its answer.
pub fn carry_out(
    d: Decision,
    storage: &mut [u8],
    program: &mut [u8],
    restart_arguments: &mut [u8],
) -> Recovered
    requires program_len { length program.old ≡ 64 }
    requires restart_arguments_len { length restart_arguments.old ≡ 16 }
    requires decision_low { DecisionLow d }
    ensures { with result storage.new program.new restart_arguments.new
        ≡ done d storage.old program.old restart_arguments.old }
{
    match d {
        Decision::Answers(r) => r,
        Decision::Corrects(r, c) => {
            correction::mend(storage, c);
            r
        }
        Decision::Restarts(q, c) => {
            correction::mend(storage, c);
            put_restart(program, restart_arguments, q);
            let kind = q.kind;
            Recovered::Restart(kind)
        }
        Decision::Resumes(q) => {
            put_overflow(program, restart_arguments, q);
            let kind = q.kind;
            Recovered::Restart(kind)
        }
    }
}
