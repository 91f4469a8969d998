// The run of a chain over an image with a fault list.
#![tactic(auto)]

ghost use Rattle.std.specs.Prelude.{◌≡◌, ◌≤◌, length};
ghost use Rattle.address.specs.Model.{last_of};
ghost use Rattle.position.specs.Standing.{Standing};
ghost use Rattle.location.specs.Low.{Low};
ghost use Rattle.command.specs.Answer.{StateLow, lent_of};
ghost use Rattle.read_command.specs.Reads.{Begun};
ghost use Rattle.trial.specs.Run.{TicsFirst, RunsOn, Runs, RanLow};
ghost use Rattle.trial.specs.Trial.{run_call, restart_call, conclusion_of, TrialLow};

use address::Model;
use channel::{Csw, Location};
use command::{Answer, Cut, End, State, Status};
use position::Drive;
use questions::Question;

// What "limit" shows: the last CSW and the file mask.
#[derive(Clone, Copy)]
pub struct Limit {
    pub csw: Csw,
    pub mask: Option<u8>,
}

// What a run comes to: an end, a cut by a faulted data area, or "limit".
#[derive(Clone, Copy)]
pub enum Ran {
    Ended(End),
    Cut(Cut),
    Limited(Limit),
}

// ---- the run

// Whether a run begins with a TIC.
fn tic_first(chain: &[u8], program: &[u8], from: Location) -> bool
    ensures { TicsFirst chain.now program.now from result }
{
    match channel::fetch(chain, program, from) {
        Some(c) => c.is_tic(),
        None => false,
    }
}

// At most `limit` commands, from a state on.
fn run_on(
    m: Model,
    chain: &[u8],
    arguments: &[u8],
    program: &[u8],
    restart_arguments: &[u8],
    image: &[u8],
    faults: &[u8],
    limit: usize,
    s: State,
    storage: &mut [u8],
) -> Ran
    requires begun { Begun chain.now program.now image.now faults.now }
    requires standing { Standing image.now s.drive }
    requires state_low { StateLow s }
    ensures runs_on { let before = storage.old in
        let after = storage.new in
        RunsOn (last_of m) chain.now arguments.now program.now restart_arguments.now
        image.now faults.now limit s before result after }
    ensures ran_low { RanLow result }
{
    let mut here = s;
    for _ in 0..limit {
        match execute::step(
            m,
            chain,
            arguments,
            program,
            restart_arguments,
            image,
            faults,
            here,
            storage,
        ) {
            Answer::Goes(t) => {
                here = t;
            }
            Answer::Ends(e) => {
                return Ran::Ended(e);
            }
            Answer::Cuts(k) => {
                return Ran::Cut(k);
            }
        }
    }
    let last = here.last;
    let d = here.drive;
    let mask = d.mask;
    Ran::Limited(Limit {
        csw: location::csw_at(last, channel::END_STATUS, 0, here.left),
        mask: mask,
    })
}

// A run from a CCW of the chain or of the restart program.
pub fn run_from(
    m: Model,
    chain: &[u8],
    arguments: &[u8],
    program: &[u8],
    restart_arguments: &[u8],
    image: &[u8],
    faults: &[u8],
    limit: usize,
    from: Location,
    storage: &mut [u8],
) -> Ran
    requires begun { Begun chain.now program.now image.now faults.now }
    requires low { Low from }
    ensures runs { let before = storage.old in
        let after = storage.new in
        Runs (last_of m) chain.now arguments.now program.now restart_arguments.now
        image.now faults.now limit from before result after }
    ensures ran_low { RanLow result }
{
    if tic_first(chain, program, from) {
        return Ran::Ended(End {
            csw: location::csw_at(from, 0, channel::PROGRAM_CHECK, 0),
            status: Status::Quiet,
            mask: None,
        });
    }
    let s = State {
        at: from,
        last: from,
        left: 0,
        drive: Drive::initial(image),
    };
    run_on(
        m,
        chain,
        arguments,
        program,
        restart_arguments,
        image,
        faults,
        limit,
        s,
        storage,
    )
}

// ---- the calls

// Questions 2 and 3, and then the run.
fn begin(
    m: Model,
    chain: &[u8],
    arguments: &[u8],
    program: &[u8],
    restart_arguments: &[u8],
    image: &[u8],
    faults: &[u8],
    limit: usize,
    from: Location,
    storage: &mut [u8],
) -> Result<Ran, Question>
    requires chain_len_bound { (length chain.now ≤ 2048) × (length program.now ≤ 64) }
    requires low { Low from }
    ensures storage_after { let lent = lent_of chain.now arguments.now program.now restart_arguments.now in
        conclusion_of result storage.new
        ≡ Rattle.trial.specs.Trial.begin (last_of m) lent image.now faults.now limit from storage.old }
    ensures trial_low { TrialLow result }
{
    if !image::well_formed(m, image) {
        return Err(Question::Image);
    }
    if !faults::sound_faults(image, faults) {
        return Err(Question::Faults);
    }
    Ok(run_from(
        m,
        chain,
        arguments,
        program,
        restart_arguments,
        image,
        faults,
        limit,
        from,
        storage,
    ))
}

// A run of a chain: questions 1, 2 and 3, and then the run. A refusal leaves storage as it was.
pub fn run(
    m: Model,
    chain: &[u8],
    arguments: &[u8],
    storage: &mut [u8],
    image: &[u8],
    faults: &[u8],
    limit: usize,
) -> Result<Ran, Question>
    ensures storage_after { let called = run_call m chain.now arguments.now storage.old image.now faults.now limit in
        conclusion_of result storage.new ≡ called }
    ensures trial_low { TrialLow result }
{
    if !questions::run_areas(
        chain.len(),
        arguments.len(),
        storage.len(),
        image.len(),
        faults.len(),
        limit,
    ) {
        return Err(Question::Areas);
    }
    begin(
        m,
        chain,
        arguments,
        &chain[..0],
        &chain[..0],
        image,
        faults,
        limit,
        Location::Chain(0),
        storage,
    )
}

// A run of a restart program: the same questions, the two restart areas included. Its limit is not lent, so question 1 is asked with
// one that fits.
pub fn run_restart(
    m: Model,
    chain: &[u8],
    arguments: &[u8],
    program: &[u8],
    restart_arguments: &[u8],
    storage: &mut [u8],
    image: &[u8],
    faults: &[u8],
) -> Result<Ran, Question>
    ensures storage_after { let called = restart_call m chain.now arguments.now program.now restart_arguments.now
        storage.old image.now faults.now in
        conclusion_of result storage.new ≡ called }
    ensures trial_low { TrialLow result }
{
    if !questions::run_areas(
        chain.len(),
        arguments.len(),
        storage.len(),
        image.len(),
        faults.len(),
        1,
    ) {
        return Err(Question::Areas);
    }
    if !questions::restart_areas(program.len(), restart_arguments.len()) {
        return Err(Question::Areas);
    }
    begin(
        m,
        chain,
        arguments,
        program,
        restart_arguments,
        image,
        faults,
        questions::RESTART_LIMIT,
        Location::Restart(0),
        storage,
    )
}
