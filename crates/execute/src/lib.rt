// One command of a run.
#![tactic(auto)]

ghost use Rattle.std.specs.Prelude.{◌≡◌};
ghost use Rattle.address.specs.Model.{last_of};
ghost use Rattle.drive.specs.Command.{command_of};
ghost use Rattle.position.specs.Standing.{drive_of, Standing};
ghost use Rattle.location.specs.Low.{Low};
ghost use Rattle.command.specs.Answer.{Kept};
ghost use Rattle.heads.specs.Reached.{ReachedStands};
ghost use Rattle.read_command.specs.Reads.{Begun};
ghost use Rattle.execute.specs.Executes.{Steps, Executes, InArea, Unchecked, Performs, single_track, ReachesFor};

use address::Model;
use channel::{Ccw, Location};
use command::{Answer, Check, State};
use drive::Command;
use heads::Reached;
use position::Drive;

// The single-track form of a multitrack command; any other command as it is.
fn single_track(k: Command) -> Command
    ensures { result ≡ single_track k }
{
    match k {
        Command::SearchIdMultitrack => Command::SearchId,
        Command::ReadMultitrack(m) => Command::ReadRecord(m),
        _ => k,
    }
}

// Where the command k of the CCW c is done: a multitrack one from where it reaches, any other with the drive as it stands. A search that will be
// rejected for its count does not step.
fn reach(image: &[u8], c: Ccw, k: Command, d: Drive) -> Reached
    requires { Standing image.now d }
    ensures reaches_for { ReachesFor image.now c k (drive_of d) result }
    ensures reached_stands { ReachedStands image.now result }
{
    match k {
        Command::SearchIdMultitrack => {
            if !control::counted(c, 5) {
                return Reached::Reaches(d);
            }
            return heads::reach_search(d, image);
        }
        Command::ReadMultitrack(m) => {
            return heads::reach_read(d, image, m.just);
        }
        _ => {
            return Reached::Reaches(d);
        }
    }
}

// A command of one track, or a multitrack one as such from where it reaches; it makes no program check.
fn perform_on_track(
    m: Model,
    chain: &[u8],
    arguments: &[u8],
    program: &[u8],
    restart_arguments: &[u8],
    image: &[u8],
    faults: &[u8],
    l: Location,
    c: Ccw,
    k: Command,
    d: Drive,
    storage: &mut [u8],
) -> Answer
    requires begun { Begun chain.now program.now image.now faults.now }
    requires in_area { InArea chain.now program.now l c }
    requires standing { Standing image.now d }
    requires k_value { k ≡ single_track (command_of c.command) }
    requires unchecked { Unchecked chain.now arguments.now program.now restart_arguments.now storage.old l c k }
    ensures performs { let before = storage.old in
        let after = storage.new in
        Performs (last_of m) chain.now arguments.now program.now restart_arguments.now
        image.now faults.now l c k (drive_of d) before result after }
    ensures kept { Kept image.now result }
{
    match k {
        Command::ReadHome => read_command::read_home(chain, program, image, l, c, d, storage),
        Command::ReadRecord(read) => {
            read_command::read_record(chain, program, image, faults, l, c, read, d, storage)
        }
        _ => moveless::perform(m, arguments, restart_arguments, image, l, c, k, d),
    }
}

// A command that makes no program check. What it calls has one caller, so that the compiler builds it in here.
fn perform(
    m: Model,
    chain: &[u8],
    arguments: &[u8],
    program: &[u8],
    restart_arguments: &[u8],
    image: &[u8],
    faults: &[u8],
    l: Location,
    c: Ccw,
    k: Command,
    d: Drive,
    storage: &mut [u8],
) -> Answer
    requires begun { Begun chain.now program.now image.now faults.now }
    requires in_area { InArea chain.now program.now l c }
    requires standing { Standing image.now d }
    requires k_value { k ≡ command_of c.command }
    requires unchecked { Unchecked chain.now arguments.now program.now restart_arguments.now storage.old l c k }
    ensures performs { let before = storage.old in
        let after = storage.new in
        Performs (last_of m) chain.now arguments.now program.now restart_arguments.now
        image.now faults.now l c k (drive_of d) before result after }
    ensures kept { Kept image.now result }
{
    let j = single_track(k);
    match reach(image, c, k, d) {
        Reached::NotFound => command::refuse(Check::NotFound, l, c, d),
        Reached::Protected(stood) => {
            let at = stood.at;
            command::refuse_step(at.head as u8, l, c, d)
        }
        Reached::EndOfCylinder => command::refuse(Check::EndOfCylinder, l, c, d),
        Reached::Reaches(e) => perform_on_track(
            m,
            chain,
            arguments,
            program,
            restart_arguments,
            image,
            faults,
            l,
            c,
            j,
            e,
            storage,
        ),
    }
}

// The CCW c at l, with the drive and storage before it.
fn execute(
    m: Model,
    chain: &[u8],
    arguments: &[u8],
    program: &[u8],
    restart_arguments: &[u8],
    image: &[u8],
    faults: &[u8],
    l: Location,
    c: Ccw,
    d: Drive,
    storage: &mut [u8],
) -> Answer
    requires begun { Begun chain.now program.now image.now faults.now }
    requires in_area { InArea chain.now program.now l c }
    requires standing { Standing image.now d }
    ensures executes { let before = storage.old in
        let after = storage.new in
        Executes (last_of m) chain.now arguments.now program.now restart_arguments.now
        image.now faults.now l c (drive_of d) before result after }
    ensures kept { Kept image.now result }
{
    let k = Command::from(c.command);
    if !drive::sound(
        l,
        c,
        k,
        arguments.len(),
        restart_arguments.len(),
        storage.len(),
    ) {
        return command::program_check(l, d);
    }
    perform(
        m,
        chain,
        arguments,
        program,
        restart_arguments,
        image,
        faults,
        l,
        c,
        k,
        d,
        storage,
    )
}

// One command of a run, from the state before it.
pub fn step(
    m: Model,
    chain: &[u8],
    arguments: &[u8],
    program: &[u8],
    restart_arguments: &[u8],
    image: &[u8],
    faults: &[u8],
    s: State,
    storage: &mut [u8],
) -> Answer
    requires begun { Begun chain.now program.now image.now faults.now }
    requires standing { Standing image.now s.drive }
    requires low { Low s.last }
    ensures steps { let before = storage.old in
        let after = storage.new in
        Steps (last_of m) chain.now arguments.now program.now restart_arguments.now
        image.now faults.now s before result after }
    ensures kept { Kept image.now result }
{
    let last = s.last;
    let at = s.at;
    let d = s.drive;
    match channel::resolve(chain, program, last, at) {
        Err(l) => command::program_check(l, d),
        Ok((l, c)) => execute(
            m,
            chain,
            arguments,
            program,
            restart_arguments,
            image,
            faults,
            l,
            c,
            d,
            storage,
        ),
    }
}
