// The calls for C, as the archive has them: each hands its areas to the call of `giruve` with its name, and promises what that promises.
#![tactic(auto)]

ghost use Rattle.std.specs.Prelude.{◌≡◌};
ghost use Rattle.questions.specs.Number.{answer_of};
ghost use Rattle.giruve.specs.Areas.{run_answer, restart_answer};
ghost use Rattle.giruve.specs.Model.{image_answer_by, faults_answer_by, extent_answer_by, run_call_by, restart_call_by, recover_call_by};
ghost use Rattle.giruve.specs.Run.{run_handing, run_handed};
ghost use Rattle.giruve.specs.Recover.{recovery_handing, recovery_handed};
ghost use Rattle.giruve.specs.Reading.{reading_handing, ReadingHandsOut};

// Questions 1 and 2: 0, 1 or 2.
#[unsafe(no_mangle)]
pub extern "C" fn giruve_check_image(model: u8, image: &[u8]) -> u8
    ensures { result ≡ answer_of (image_answer_by model image.now) }
{
    giruve::giruve_check_image(model, image)
}

// Questions 1, 2 and 3: 0, 1, 2 or 3.
#[unsafe(no_mangle)]
pub extern "C" fn giruve_check_faults(model: u8, image: &[u8], faults: &[u8]) -> u8
    ensures { result ≡ answer_of (faults_answer_by model image.now faults.now) }
{
    giruve::giruve_check_faults(model, image, faults)
}

// Questions 1 and 5: 0, 1 or 5.
#[unsafe(no_mangle)]
pub extern "C" fn giruve_check_extent(model: u8, extent: &[u8]) -> u8
    ensures { result ≡ answer_of (extent_answer_by model extent.now) }
{
    giruve::giruve_check_extent(model, extent)
}

// Question 1 for a run, from the lengths of its areas and its command limit: 0 or 1.
#[unsafe(no_mangle)]
pub extern "C" fn giruve_check_areas(
    chain: usize,
    arguments: usize,
    storage: usize,
    image: usize,
    faults: usize,
    limit: usize,
) -> u8
    ensures { result ≡ answer_of (run_answer chain arguments storage image faults limit) }
{
    giruve::giruve_check_areas(chain, arguments, storage, image, faults, limit)
}

// Question 1 for the restart areas, from their lengths: 0 or 1.
#[unsafe(no_mangle)]
pub extern "C" fn giruve_check_restart_areas(program: usize, restart_arguments: usize) -> u8
    ensures { result ≡ answer_of (restart_answer program restart_arguments) }
{
    giruve::giruve_check_restart_areas(program, restart_arguments)
}

// A run of a chain: 0 ended, 64 "limit", 1, 2 or 3 refused. The answer area has 36 bytes; another length is refused by 1.
// A refusal leaves storage and answer as they were.
#[unsafe(no_mangle)]
pub extern "C" fn giruve_run(
    model: u8,
    chain: &[u8],
    arguments: &[u8],
    storage: &mut [u8],
    image: &[u8],
    faults: &[u8],
    limit: usize,
    answer: &mut [u8],
) -> u8
    ensures { let called = run_call_by model chain.now arguments.now storage.old image.now faults.now limit in
        run_handing result answer.new storage.new ≡ run_handed answer.old storage.old called }
{
    giruve::giruve_run(
        model, chain, arguments, storage, image, faults, limit, answer,
    )
}

// A run of a restart program, with its own limit; the same numbers.
#[unsafe(no_mangle)]
pub extern "C" fn giruve_run_restart(
    model: u8,
    chain: &[u8],
    arguments: &[u8],
    program: &[u8],
    restart_arguments: &[u8],
    storage: &mut [u8],
    image: &[u8],
    faults: &[u8],
    answer: &mut [u8],
) -> u8
    ensures { let called = restart_call_by model chain.now arguments.now program.now restart_arguments.now
        storage.old image.now faults.now in
        run_handing result answer.new storage.new ≡ run_handed answer.old storage.old called }
{
    giruve::giruve_run_restart(
        model,
        chain,
        arguments,
        program,
        restart_arguments,
        storage,
        image,
        faults,
        answer,
    )
}

// Recovery from a report. An answer area is one of 10 bytes; returned is 0, or the refusing question's number.
#[unsafe(no_mangle)]
pub extern "C" fn giruve_recover(
    model: u8,
    chain: &[u8],
    report: &[u8],
    extent: &[u8],
    storage: &mut [u8],
    program: &mut [u8],
    restart_arguments: &mut [u8],
    answer: &mut [u8],
) -> u8
    ensures { let called = recover_call_by model chain.now report.now extent.now
        storage.old program.old restart_arguments.old in
        let after = recovery_handing result answer.new storage.new program.new restart_arguments.new in
        after ≡ recovery_handed answer.old storage.old program.old restart_arguments.old called }
{
    giruve::giruve_recover(
        model,
        chain,
        report,
        extent,
        storage,
        program,
        restart_arguments,
        answer,
    )
}

// The whole reading. An answer area is one of 11 bytes; returned is 0 ended, 64 "limit", 65 "stopped", or the refusing question's number.
#[unsafe(no_mangle)]
pub extern "C" fn giruve_reading(
    model: u8,
    chain: &[u8],
    arguments: &[u8],
    storage: &mut [u8],
    image: &[u8],
    faults: &[u8],
    extent: &[u8],
    limit: usize,
    program: &mut [u8],
    restart_arguments: &mut [u8],
    list: &mut [u8],
    answer: &mut [u8],
) -> u8
    ensures { let after = reading_handing result answer.new storage.new program.new restart_arguments.new list.new in
        ReadingHandsOut model chain.now arguments.now storage.old image.now faults.now
        extent.now limit program.old restart_arguments.old list.old answer.old after }
{
    giruve::giruve_reading(
        model,
        chain,
        arguments,
        storage,
        image,
        faults,
        extent,
        limit,
        program,
        restart_arguments,
        list,
        answer,
    )
}
