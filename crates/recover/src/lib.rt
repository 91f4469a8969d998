// Recovery from one report.
#![tactic(auto)]

ghost use Rattle.std.specs.Prelude.{◌≡◌, ◌≤◌, length};
ghost use Rattle.error_table.specs.Table.{Chooses};
ghost use Rattle.report.specs.Told.{ToldLow};
ghost use Rattle.recovered.specs.Applied.{with, RecoveredLow};
ghost use Rattle.decision.specs.Decision.{GoesLow, DecisionLow};
ghost use Rattle.recover.specs.Recover.{recover_call, ActsBy, DecidesIn, Recovers, tried_of, recover_areas};

use address::{Extent, Model};
use decision::Decision;
use error_table::Action;
use questions::Question;
use recovered::Recovered;
use report::Told;

// Actions 3 and 4: the chain is run again as long as there were fewer tries than the limit.
fn tried(tries: usize, limit: usize) -> Recovered
    ensures { result ≡ tried_of tries limit }
{
    if tries < limit {
        Recovered::Repeat
    } else {
        Recovered::ActionOne
    }
}

// What an action decides.
fn act(action: Action, chain: &[u8], size: usize, t: Told) -> Decision
    requires chain_len_bound { length chain.now ≤ 2048 }
    requires size_bound { size ≤ 65536 }
    requires told_low { ToldLow t }
    ensures acts_by { ActsBy action chain.now size t result }
    ensures goes_low { GoesLow result }
{
    match action {
        Action::One => Decision::Answers(Recovered::ActionOne),
        Action::Two => Decision::Answers(Recovered::ActionTwo),
        Action::Three => Decision::Answers(tried(t.tries, 1)),
        Action::Four => Decision::Answers(tried(t.tries, 10)),
        Action::Five => action_five::five(chain, size, t),
        Action::Eight => action_eight_ten::eight(chain, t),
        Action::Nine => action_nine_eleven::nine(chain, size, t),
        Action::Ten => action_eight_ten::ten(chain, t),
        Action::Eleven => action_nine_eleven::eleven(chain, size, t),
        Action::Six | Action::SixA | Action::Seven => {
            Decision::Answers(Recovered::Refused(Question::Action))
        }
    }
}

// The action of the error table.
fn choose(t: Told) -> Option<Action>
    ensures { Chooses t.sense.byte0 t.sense.byte1 t.sense.byte2 result }
{
    let s = t.sense;
    error_table::action_for(s.byte0, s.byte1, s.byte2)
}

// Questions 6 to 9 and the actions: what is decided with storage of `size` bytes, by what a report tells, in an extent.
fn decide(chain: &[u8], size: usize, t: Told, x: Extent) -> Decision
    requires chain_len_bound { length chain.now ≤ 2048 }
    requires size_bound { size ≤ 65536 }
    requires told_low { ToldLow t }
    ensures decides_in { DecidesIn x chain.now size t result }
    ensures decision_low { DecisionLow result }
{
    match choose(t) {
        Some(action) => decision::bound(x, act(action, chain, size, t)),
        None => Decision::Answers(Recovered::Refused(Question::Row)),
    }
}

// Recovery by what a report tells: decided, then carried out.
pub fn recover_told(
    chain: &[u8],
    t: Told,
    x: Extent,
    storage: &mut [u8],
    program: &mut [u8],
    restart_arguments: &mut [u8],
) -> Recovered
    requires chain_len_bound { length chain.now ≤ 2048 }
    requires storage_len_bound { length storage.old ≤ 65536 }
    requires told_low { ToldLow t }
    requires program_len { length program.old ≡ 64 }
    requires restart_arguments_len { length restart_arguments.old ≡ 16 }
    ensures { let after = with result storage.new program.new restart_arguments.new in
        Recovers x chain.now t storage.old program.old restart_arguments.old after }
{
    let d = decide(chain, storage.len(), t, x);
    decision::carry_out(d, storage, program, restart_arguments)
}

// Question 1, from the lengths of the areas.
fn areas_fit(
    chain: usize,
    storage: usize,
    program: usize,
    restart_arguments: usize,
    extent: usize,
) -> bool
    ensures { result ≡ recover_areas chain storage program restart_arguments extent }
{
    if !questions::chain_fits(chain) {
        return false;
    }
    if !questions::storage_fits(storage) {
        return false;
    }
    if !questions::restart_areas(program, restart_arguments) {
        return false;
    }
    extent == 8
}

// Recovery from a report of a read of a pack of this model: refused by question 1, 4, 5, 6, 7, 8 or 9 with nothing changed, or answered.
pub fn recover(
    m: Model,
    chain: &[u8],
    report: &[u8],
    extent: &[u8],
    storage: &mut [u8],
    program: &mut [u8],
    restart_arguments: &mut [u8],
) -> Recovered
    ensures after_after { let after = with result storage.new program.new restart_arguments.new in
        after ≡ recover_call m chain.now report.now extent.now
        storage.old program.old restart_arguments.old }
    ensures recovered_low { RecoveredLow result }
{
    if !areas_fit(
        chain.len(),
        storage.len(),
        program.len(),
        restart_arguments.len(),
        extent.len(),
    ) {
        return Recovered::Refused(Question::Areas);
    }
    let r = match report::read(report) {
        Ok(w) => w,
        Err(q) => {
            return Recovered::Refused(q);
        }
    };
    let x = address::extent_of(m, extent);
    if !x.on_pack() {
        return Recovered::Refused(Question::Extent);
    }
    let t = report::tell(m, report, r);
    recover_told(chain, t, x, storage, program, restart_arguments)
}
