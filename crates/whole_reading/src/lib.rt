// The call that reads: its questions, the first run, and all that follow it.
#![tactic(auto)]

ghost use Rattle.std.specs.Prelude.{◌≡◌};
ghost use Rattle.reading_runs.specs.Conclusion.{leaving, MadeWithin, OutcomeLow};
ghost use Rattle.whole_reading.specs.Reading.{reading_areas, Answers};

use address::Model;
use channel::Location;
use questions::Question;
use reading_runs::Over;

// Question 1, from the lengths of the areas and the command limit.
fn areas_fit(
    chain: usize,
    arguments: usize,
    storage: usize,
    image: usize,
    faults: usize,
    extent: usize,
    limit: usize,
    program: usize,
    restart_arguments: usize,
    list: usize,
) -> bool
    ensures { result ≡ reading_areas chain arguments storage image faults extent limit program restart_arguments list }
{
    if !questions::run_areas(chain, arguments, storage, image, faults, limit) {
        return false;
    }
    if extent != 8 {
        return false;
    }
    if !questions::restart_areas(program, restart_arguments) {
        return false;
    }
    limit * 6 <= list
}

// A reading: refused by question 1, 2, 3 or 5 with nothing changed, or read to its end. The list gets 6 bytes for each recovery.
pub fn read(
    m: Model,
    chain: &[u8],
    arguments: &[u8],
    storage: &mut [u8],
    image: &[u8],
    faults: &[u8],
    extent: &[u8],
    limit: usize,
    program: &mut [u8],
    restart_arguments: &mut [u8],
    list: &mut [u8],
) -> Result<Over, Question>
    ensures answers { let after = leaving result storage.new program.new restart_arguments.new list.new in
        Answers m chain.now arguments.now storage.old image.now faults.now
        extent.now limit program.old restart_arguments.old list.old after }
    ensures made { MadeWithin limit result }
    ensures low { OutcomeLow result }
{
    if !areas_fit(
        chain.len(),
        arguments.len(),
        storage.len(),
        image.len(),
        faults.len(),
        extent.len(),
        limit,
        program.len(),
        restart_arguments.len(),
        list.len(),
    ) {
        return Err(Question::Areas);
    }
    if !image::well_formed(m, image) {
        return Err(Question::Image);
    }
    if !faults::sound_faults(image, faults) {
        return Err(Question::Faults);
    }
    let x = address::extent_of(m, extent);
    if !x.on_pack() {
        return Err(Question::Extent);
    }
    let first = trial::run_from(
        m,
        chain,
        arguments,
        &chain[..0],
        &chain[..0],
        image,
        faults,
        limit,
        Location::Chain(0),
        storage,
    );
    Ok(reading_runs::read_on(
        chain,
        arguments,
        image,
        faults,
        x,
        limit,
        first,
        storage,
        program,
        restart_arguments,
        list,
    ))
}
