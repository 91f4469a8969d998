// Lines of what recovery answers: the action in words, the correction, the restart program; or the refusal.
#![tactic(auto)]

ghost use Rattle.std.specs.Prelude.{◌≡◌, ◌+◌, ◌≤◌, length};
ghost use Rattle.text.specs.Text.{Puts};
ghost use Rattle.explain_answer.specs.Answer.{action_line, restart_index, csw_line, head_text, detail_text, restart_text, finished_text, answer_text};

use channel::Csw;
use recovered::{Kind, Recovered};

// An action in words, by its number in the list.
fn put_action(out: &mut [u8], at: usize, i: usize) -> usize
    requires { at + 65 ≤ length out.old }
    ensures puts { Puts out.old at (action_line i) out.new result }
    ensures upper_bound { result ≤ at + 65 }
{
    let end = words::put_item(
        out,
        at,
        b"action 1: permanent error, tell the operator/action 2: give the condition back to the program, no retry/repeat: run the chain again/action 5: storage is corrected, and no more: PCI fetch mode/action 5: storage is corrected, and the chain is finished/action 5: storage is corrected, go on behind the search/action 5A: storage is corrected, go on behind a read count/action 8: seek the next cylinder, repeat the interrupted CCW/action 9: seek the next cylinder, read on by restart CCW 1/action 10: make the user's seek, go on behind it/action 10A: seek the next track, repeat the interrupted CCW/action 11: seek the next track, read on by restart CCW 1",
        i,
    );
    text::put(out, end, b"\n")
}

// The CSW of a chain that is finished.
fn put_csw(out: &mut [u8], at: usize, w: Csw) -> usize
    requires { at + 22 ≤ length out.old }
    ensures puts { Puts out.old at (csw_line w) out.new result }
    ensures value { result ≡ at + 22 }
{
    let next = text::put(out, at, b"csw");
    status::put_csw(out, next, w)
}

fn restart_index(k: Kind) -> usize
    ensures { result ≡ restart_index k }
{
    match k {
        Kind::Five => 5,
        Kind::FiveA => 6,
        Kind::Eight => 7,
        Kind::Nine => 8,
        Kind::Ten => 9,
        Kind::TenA => 10,
        Kind::Eleven => 11,
    }
}

// Where the track of 10A and 11 comes from.
fn put_head(out: &mut [u8], at: usize, sense: &[u8]) -> usize
    requires at_in_bounds { at + 80 ≤ length out.old }
    requires sense_len { length sense.now ≡ 24 }
    ensures puts { Puts out.old at (head_text sense.now) out.new result }
    ensures upper_bound { result ≤ at + 80 }
{
    let head = report::reached_head(sense[6]);
    let number = text::put(out, at, b"head reached");
    let rest = text::put_number(out, number, 10, 2, head);
    text::put(
        out,
        rest,
        b", by sense byte 6, on the cylinder of the user's seek argument\n",
    )
}

// What the action rests on: a correction, or the head reached.
fn put_detail(out: &mut [u8], at: usize, k: Kind, sense: &[u8], storage: &[u8]) -> usize
    requires at_in_bounds { at + 233 ≤ length out.old }
    requires sense_len { length sense.now ≡ 24 }
    ensures puts { Puts out.old at (detail_text k sense.now storage.now) out.new result }
    ensures upper_bound { result ≤ at + 233 }
{
    match k {
        Kind::Five => explain_correction::put_correction(out, at, sense, storage),
        Kind::FiveA => explain_correction::put_correction(out, at, sense, storage),
        Kind::Eight => at,
        Kind::Nine => at,
        Kind::Ten => at,
        Kind::TenA => put_head(out, at, sense),
        Kind::Eleven => put_head(out, at, sense),
    }
}

// A restart: its action, the correction, and its program with the arguments.
fn put_restart(
    out: &mut [u8],
    at: usize,
    k: Kind,
    sense: &[u8],
    storage: &[u8],
    program: &[u8],
    restart_arguments: &[u8],
) -> usize
    requires at_in_bounds { at + 5754 ≤ length out.old }
    requires sense_len { length sense.now ≡ 24 }
    requires program_len { length program.now ≡ 64 }
    requires restart_arguments_len { length restart_arguments.now ≡ 16 }
    ensures puts { let lines = restart_text k sense.now storage.now program.now restart_arguments.now in
        Puts out.old at lines out.new result }
    ensures upper_bound { result ≤ at + 5754 }
{
    let i = restart_index(k);
    let n = explain_ccws::used_in(program);
    let second = put_action(out, at, i);
    let third = put_detail(out, second, k, sense, storage);
    explain_ccws::put_ccws(
        out,
        third,
        b"restart",
        0x1000,
        program,
        restart_arguments,
        n,
    )
}

// A chain that is finished: the correction, and the CSW.
fn put_finished(out: &mut [u8], at: usize, w: Csw, sense: &[u8], storage: &[u8]) -> usize
    requires at_in_bounds { at + 320 ≤ length out.old }
    requires sense_len { length sense.now ≡ 24 }
    ensures puts { Puts out.old at (finished_text w sense.now storage.now) out.new result }
    ensures upper_bound { result ≤ at + 320 }
{
    let second = put_action(out, at, 4);
    let third = explain_correction::put_correction(out, second, sense, storage);
    put_csw(out, third, w)
}

// What recovery answered, with storage and the restart areas behind it.
pub fn put_answer(
    out: &mut [u8],
    at: usize,
    r: Recovered,
    sense: &[u8],
    storage: &[u8],
    program: &[u8],
    restart_arguments: &[u8],
) -> usize
    requires at_in_bounds { at + 5754 ≤ length out.old }
    requires sense_len { length sense.now ≡ 24 }
    requires program_len { length program.now ≡ 64 }
    requires restart_arguments_len { length restart_arguments.now ≡ 16 }
    ensures puts { let lines = answer_text r sense.now storage.now program.now restart_arguments.now in
        Puts out.old at lines out.new result }
    ensures upper_bound { result ≤ at + 5754 }
{
    match r {
        Recovered::Refused(q) => {
            return explain_names::put_refusal(out, at, q);
        }
        Recovered::ActionOne => {
            return put_action(out, at, 0);
        }
        Recovered::ActionTwo => {
            return put_action(out, at, 1);
        }
        Recovered::Repeat => {
            return put_action(out, at, 2);
        }
        Recovered::CorrectedOnly => {
            let next = put_action(out, at, 3);
            return explain_correction::put_correction(out, next, sense, storage);
        }
        Recovered::Finished(w) => {
            return put_finished(out, at, w, sense, storage);
        }
        Recovered::Restart(k) => {
            return put_restart(out, at, k, sense, storage, program, restart_arguments);
        }
    }
}
