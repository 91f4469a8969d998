// A cut in a reading: what its report tells, its recovery, and its place in the list.
#![tactic(auto)]

ghost use Rattle.std.specs.Prelude.{◌≡◌, ◌∷◌, ◌++◌, [], ◌≤◌, length, drop};
ghost use Rattle.report.specs.Told.{ToldLow};
ghost use Rattle.recovered.specs.Applied.{with};
ghost use Rattle.drive.specs.Drive.{address_bytes};
ghost use Rattle.command.specs.Answer.{CutLow};
ghost use Rattle.reading_cut.specs.Cut.{Lendable, CutTells, RecoversCut, lent_areas, WentLow, AfterCut};

use address::Extent;
use channel::Csw;
use command::Cut;
use recovered::Recovered;
use report::{Sense, Told};

// What comes of a cut: a restart, built and yet to be run; an end with this CSW; a stop by this number.
#[derive(Clone, Copy)]
pub enum Went {
    Again,
    Closed(Csw),
    Halted(u8),
}

// What the report of a cut tells: a correctable data check in format 53 and its sector 0, as in the drive's sense bytes; no seek
// argument, and no tries made.
fn told_by(k: Cut) -> Told
    requires { CutLow k }
    ensures cut_tells { CutTells k result }
    ensures told_low { ToldLow result }
{
    let csw = k.csw;
    let first = k.first;
    let mask = k.mask;
    let at = k.at;
    let restart = k.restart;
    let error = k.error;
    let sense = Sense {
        byte0: 0x08,
        byte1: 0,
        byte2: 0x40,
        byte3: 0,
        head: 0,
        format: 0x53,
        track: at,
        number: k.r as u8,
        sector: 0,
        restart: restart,
        error: error,
        pattern0: k.pattern0,
        pattern1: k.pattern1,
        pattern2: k.pattern2,
    };
    Told {
        sense: sense,
        csw: csw,
        first: location::address_of(first),
        mask: mask,
        user: None,
        tries: 0,
    }
}

// The recovery from a cut: decided by what its report tells, then carried out.
fn recover_cut(
    chain: &[u8],
    x: Extent,
    k: Cut,
    storage: &mut [u8],
    program: &mut [u8],
    restart_arguments: &mut [u8],
) -> Recovered
    requires lendable { Lendable chain.now storage.old program.old restart_arguments.old }
    requires cut_low { CutLow k }
    ensures { let after = with result storage.new program.new restart_arguments.new in
        RecoversCut chain.now x k storage.old program.old restart_arguments.old after }
{
    let t = told_by(k);
    recover::recover_told(chain, t, x, storage, program, restart_arguments)
}

// A recovery's six bytes at the front of a part of the list.
fn note(entry: &mut [u8], action: u8, k: Cut)
    requires in_bounds { 6 ≤ length entry.old }
    requires cut_low { CutLow k }
    ensures { entry.new ≡ (action ∷ address_bytes k.at ++ k.r ∷ []) ++ drop 6 entry.old }
{
    let a = k.at;
    copy::put(
        entry,
        &[
            action,
            (a.cylinder / 256) as u8,
            (a.cylinder % 256) as u8,
            (a.head / 256) as u8,
            (a.head % 256) as u8,
            k.r as u8,
        ],
    );
}

// A cut: its recovery, noted in the part of the list that is lent as `entry`.
pub fn after_cut(
    chain: &[u8],
    x: Extent,
    k: Cut,
    storage: &mut [u8],
    program: &mut [u8],
    restart_arguments: &mut [u8],
    entry: &mut [u8],
) -> Went
    requires lendable { Lendable chain.now storage.old program.old restart_arguments.old }
    requires cut_low { CutLow k }
    requires in_bounds { 6 ≤ length entry.old }
    ensures after_cut { let before = lent_areas storage.old program.old restart_arguments.old entry.old in
        let after = lent_areas storage.new program.new restart_arguments.new entry.new in
        AfterCut chain.now x k before result after }
    ensures went_low { WentLow result }
{
    match recover_cut(chain, x, k, storage, program, restart_arguments) {
        Recovered::Restart(kind) => {
            note(entry, u8::from(kind), k);
            Went::Again
        }
        Recovered::Finished(w) => {
            note(entry, 0x05, k);
            Went::Closed(w)
        }
        Recovered::CorrectedOnly => {
            note(entry, 0x05, k);
            let w = k.csw;
            Went::Closed(w)
        }
        Recovered::Refused(q) => Went::Halted(u8::from(q)),
        Recovered::ActionOne => Went::Halted(1),
        Recovered::ActionTwo => Went::Halted(2),
        Recovered::Repeat => Went::Halted(3),
    }
}
