// The calls for Rust, and by the crate `giruve_c` for C: plain bytes and numbers in, document 01's numbers out. Each stands for a proved call
// and adds no rule. Those that meet a track address take the pack's model, 1 or 11; another number is refused by 1, with nothing changed.
#![tactic(auto)]

ghost use Rattle.std.specs.Prelude.{◌≡◌, length};
ghost use Rattle.questions.specs.Number.{answer_of};
ghost use Rattle.trial.specs.Trial.{TrialLow};
ghost use Rattle.giruve.specs.Areas.{run_answer, restart_answer};
ghost use Rattle.giruve.specs.Model.{image_answer_by, faults_answer_by, extent_answer_by, run_call_by, restart_call_by, recover_call_by};
ghost use Rattle.giruve.specs.Run.{HandsOut, run_handing, run_handed};
ghost use Rattle.giruve.specs.Recover.{recovery_handing, recovery_handed};
ghost use Rattle.giruve.specs.Reading.{reading_handing, ReadingHandsOut};

use address::Model;
use questions::Question;
use trial::Ran;

// Questions 1 and 2: 0, 1 or 2.
pub fn giruve_check_image(model: u8, image: &[u8]) -> u8
    ensures { result ≡ answer_of (image_answer_by model image.now) }
{
    let Ok(m) = Model::try_from(model) else {
        return u8::from(Question::Areas);
    };
    questions::answer(image::check_image(m, image))
}

// Questions 1, 2 and 3: 0, 1, 2 or 3.
pub fn giruve_check_faults(model: u8, image: &[u8], faults: &[u8]) -> u8
    ensures { result ≡ answer_of (faults_answer_by model image.now faults.now) }
{
    let Ok(m) = Model::try_from(model) else {
        return u8::from(Question::Areas);
    };
    questions::answer(faults::check_faults(m, image, faults))
}

// Questions 1 and 5: 0, 1 or 5.
pub fn giruve_check_extent(model: u8, extent: &[u8]) -> u8
    ensures { result ≡ answer_of (extent_answer_by model extent.now) }
{
    let Ok(m) = Model::try_from(model) else {
        return u8::from(Question::Areas);
    };
    questions::answer(address::check_extent(m, extent))
}

// Question 1 for a run, from the lengths of its areas and its command limit: 0 or 1.
pub fn giruve_check_areas(
    chain: usize,
    arguments: usize,
    storage: usize,
    image: usize,
    faults: usize,
    limit: usize,
) -> u8
    ensures { result ≡ answer_of (run_answer chain arguments storage image faults limit) }
{
    if questions::run_areas(chain, arguments, storage, image, faults, limit) {
        return questions::answer(Ok(()));
    }
    questions::answer(Err(Question::Areas))
}

// Question 1 for the restart areas, from their lengths: 0 or 1.
pub fn giruve_check_restart_areas(program: usize, restart_arguments: usize) -> u8
    ensures { result ≡ answer_of (restart_answer program restart_arguments) }
{
    if questions::restart_areas(program, restart_arguments) {
        return questions::answer(Ok(()));
    }
    questions::answer(Err(Question::Areas))
}

// ---- runs

// The bytes of an answer.
const ANSWER_LENGTH: usize = 36;

// A run's number, with its bytes in the answer area; a refusal leaves the area as it was.
fn hand_out(answer: &mut [u8], t: Result<Ran, Question>) -> u8
    requires answer_len { length answer.old ≡ 36 }
    requires trial_low { TrialLow t }
    ensures { HandsOut answer.old t result answer.new }
{
    match t {
        Err(q) => {
            return u8::from(q);
        }
        Ok(r) => {
            run_answer::put(answer, r);
            return run_answer::number(r);
        }
    }
}

// A run of a chain: 0 ended, 64 "limit", 1, 2 or 3 refused. The answer area has 36 bytes; another length is refused by 1.
// A refusal leaves storage and answer as they were.
pub fn giruve_run(
    model: u8,
    chain: &[u8],
    arguments: &[u8],
    storage: &mut [u8],
    image: &[u8],
    faults: &[u8],
    limit: usize,
    answer: &mut [u8],
) -> u8
    ensures { let called = run_call_by model chain.now arguments.now storage.old image.now faults.now limit in
        run_handing result answer.new storage.new ≡ run_handed answer.old storage.old called }
{
    if answer.len() != ANSWER_LENGTH {
        return u8::from(Question::Areas);
    }
    let Ok(m) = Model::try_from(model) else {
        return u8::from(Question::Areas);
    };
    let t = trial::run(m, chain, arguments, storage, image, faults, limit);
    hand_out(answer, t)
}

// A run of a restart program, with its own limit; the same numbers.
pub fn giruve_run_restart(
    model: u8,
    chain: &[u8],
    arguments: &[u8],
    program: &[u8],
    restart_arguments: &[u8],
    storage: &mut [u8],
    image: &[u8],
    faults: &[u8],
    answer: &mut [u8],
) -> u8
    ensures { let called = restart_call_by model chain.now arguments.now program.now restart_arguments.now
        storage.old image.now faults.now in
        run_handing result answer.new storage.new ≡ run_handed answer.old storage.old called }
{
    if answer.len() != ANSWER_LENGTH {
        return u8::from(Question::Areas);
    }
    let Ok(m) = Model::try_from(model) else {
        return u8::from(Question::Areas);
    };
    let t = trial::run_restart(
        m,
        chain,
        arguments,
        program,
        restart_arguments,
        storage,
        image,
        faults,
    );
    hand_out(answer, t)
}

// Recovery from a report. An answer area is one of 10 bytes; returned is 0, or the refusing question's number.
pub fn giruve_recover(
    model: u8,
    chain: &[u8],
    report: &[u8],
    extent: &[u8],
    storage: &mut [u8],
    program: &mut [u8],
    restart_arguments: &mut [u8],
    answer: &mut [u8],
) -> u8
    ensures { let called = recover_call_by model chain.now report.now extent.now
        storage.old program.old restart_arguments.old in
        let after = recovery_handing result answer.new storage.new program.new restart_arguments.new in
        after ≡ recovery_handed answer.old storage.old program.old restart_arguments.old called }
{
    if answer.len() != 10 {
        return u8::from(Question::Areas);
    }
    let Ok(m) = Model::try_from(model) else {
        return u8::from(Question::Areas);
    };
    let r = recover::recover(
        m,
        chain,
        report,
        extent,
        storage,
        program,
        restart_arguments,
    );
    recovery_answer::put(answer, r)
}

// The whole reading. An answer area is one of 11 bytes; returned is 0 ended, 64 "limit", 65 "stopped", or the refusing question's number.
pub fn giruve_reading(
    model: u8,
    chain: &[u8],
    arguments: &[u8],
    storage: &mut [u8],
    image: &[u8],
    faults: &[u8],
    extent: &[u8],
    limit: usize,
    program: &mut [u8],
    restart_arguments: &mut [u8],
    list: &mut [u8],
    answer: &mut [u8],
) -> u8
    ensures { let after = reading_handing result answer.new storage.new program.new restart_arguments.new list.new in
        ReadingHandsOut model chain.now arguments.now storage.old image.now faults.now
        extent.now limit program.old restart_arguments.old list.old answer.old after }
{
    if answer.len() != 11 {
        return u8::from(Question::Areas);
    }
    let Ok(m) = Model::try_from(model) else {
        return u8::from(Question::Areas);
    };
    let o = whole_reading::read(
        m,
        chain,
        arguments,
        storage,
        image,
        faults,
        extent,
        limit,
        program,
        restart_arguments,
        list,
    );
    reading_answer::put(answer, o)
}
