// The questions that a call asks in number order, and question 1: the sizes of the lent areas and the command limit.
#![tactic(auto)]

ghost use Rattle.std.specs.Prelude.{◌≡◌};
ghost use Rattle.questions.specs.Areas;
ghost use Rattle.questions.specs.Number.{number_of, answer_of};

// What a refusal names: the first question whose answer is no.
#[derive(Clone, Copy, PartialEq, Eq)]
pub enum Question {
    Areas,
    Image,
    Faults,
    Report,
    Extent,
    Row,
    Action,
    Format,
    Agreement,
}

// The command limit of a restarted run.
pub const RESTART_LIMIT: usize = 8192;

// What a run or a reading returns as "limit", and a reading as "stopped": 1 to 63 are questions.
pub const LIMIT: u8 = 64;

pub const STOPPED: u8 = 65;

// The number of a question.
impl From<Question> for u8 {
    ghost from_gives = { λ q n. n ≡ number_of q };

    fn from(q: Question) -> u8 {
        match q {
            Question::Areas => 1,
            Question::Image => 2,
            Question::Faults => 3,
            Question::Report => 4,
            Question::Extent => 5,
            Question::Row => 6,
            Question::Action => 7,
            Question::Format => 8,
            Question::Agreement => 9,
        }
    }
}

// A check's answer as a number: 0 accepted, else the refusing question's.
pub fn answer(c: Result<(), Question>) -> u8
    ensures { result ≡ answer_of c }
{
    match c {
        Ok(()) => 0,
        Err(q) => u8::from(q),
    }
}

pub fn chain_fits(n: usize) -> bool
    ensures { result ≡ Areas.chain_fits n }
{
    if n < 8 {
        return false;
    }
    if 2048 < n {
        return false;
    }
    n % 8 == 0
}

pub fn arguments_fit(n: usize) -> bool
    ensures { result ≡ Areas.arguments_fit n }
{
    n <= 4096
}

pub fn storage_fits(n: usize) -> bool
    ensures { result ≡ Areas.storage_fits n }
{
    n <= 65536
}

pub fn faults_fit(n: usize) -> bool
    ensures { result ≡ Areas.faults_fit n }
{
    n <= 65536
}

pub fn image_fits(n: usize) -> bool
    ensures { result ≡ Areas.image_fits n }
{
    n <= 1048576
}

pub fn program_fits(n: usize) -> bool
    ensures { result ≡ Areas.program_fits n }
{
    n == 64
}

pub fn restart_arguments_fit(n: usize) -> bool
    ensures { result ≡ Areas.restart_arguments_fit n }
{
    n == 16
}

pub fn limit_fits(n: usize) -> bool
    ensures { result ≡ Areas.limit_fits n }
{
    if n < 1 {
        return false;
    }
    n <= 4096
}

// Question 1 for a run: the five areas' lengths and the command limit.
pub fn run_areas(
    chain: usize,
    arguments: usize,
    storage: usize,
    image: usize,
    faults: usize,
    limit: usize,
) -> bool
    ensures { result ≡ Areas.run_areas chain arguments storage image faults limit }
{
    if !chain_fits(chain) {
        return false;
    }
    if !arguments_fit(arguments) {
        return false;
    }
    if !storage_fits(storage) {
        return false;
    }
    if !image_fits(image) {
        return false;
    }
    if !faults_fit(faults) {
        return false;
    }
    limit_fits(limit)
}

// Question 1 for the two restart areas' lengths.
pub fn restart_areas(program: usize, restart_arguments: usize) -> bool
    ensures { result ≡ Areas.restart_areas program restart_arguments }
{
    if !program_fits(program) {
        return false;
    }
    restart_arguments_fit(restart_arguments)
}
