// The work of the program `explain` between its input and its output: the parts are found, recovery is asked, the lines are put.
#![tactic(auto)]

ghost use Rattle.std.specs.Prelude.{◌≡◌, ◌+◌, ◌≤◌, length};
ghost use Rattle.text.specs.Text.{Puts};
ghost use Rattle.explain_input.specs.Found.{parts_in, Ordered};
ghost use Rattle.explain_session.specs.Session.{room, sense_of, report_text, explained, printed};

use address::Model;
use explain_input::Places;
use questions::Question;
use recovered::Recovered;

// The bytes of the longest text: 256 CCWs of 682, sense bits of 1,855, a row of 177, an answer of 5,754.
pub const ROOM: usize = 182378;

// Sense bits and row, and what recovery answered.
fn put_told(
    out: &mut [u8],
    at: usize,
    r: Recovered,
    sense: &[u8],
    storage: &[u8],
    program: &[u8],
    restart_arguments: &[u8],
) -> usize
    requires at_in_bounds { at + 7786 ≤ length out.old }
    requires sense_len { length sense.now ≡ 24 }
    requires program_len { length program.now ≡ 64 }
    requires restart_arguments_len { length restart_arguments.now ≡ 16 }
    ensures puts { let lines = report_text r sense.now storage.now program.now restart_arguments.now in
        Puts out.old at lines out.new result }
    ensures upper_bound { result ≤ at + 7786 }
{
    let row = explain_sense::put_sense(out, at, sense);
    let answer = explain_sense::put_row(out, row, sense);
    explain_answer::put_answer(out, answer, r, sense, storage, program, restart_arguments)
}

// The same for a report: one that is not well formed shows no sense.
fn put_reported(
    out: &mut [u8],
    at: usize,
    r: Recovered,
    report: &[u8],
    storage: &[u8],
    program: &[u8],
    restart_arguments: &[u8],
) -> usize
    requires at_in_bounds { at + 7786 ≤ length out.old }
    requires program_len { length program.now ≡ 64 }
    requires restart_arguments_len { length restart_arguments.now ≡ 16 }
    ensures puts { let lines = report_text r (sense_of report.now) storage.now program.now restart_arguments.now in
        Puts out.old at lines out.new result }
    ensures upper_bound { result ≤ at + 7786 }
{
    let Ok(_) = report::read(report) else {
        let unread = [0u8; 24];
        return put_told(out, at, r, &unread, storage, program, restart_arguments);
    };
    put_told(
        out,
        at,
        r,
        &report[3..27],
        storage,
        program,
        restart_arguments,
    )
}

// The text for the parts at their places, on a pack of model 1. Storage and the restart areas begin as zeros.
fn put_parts(input: &[u8], p: Places, out: &mut [u8]) -> usize
    requires ordered { Ordered p (length input.now) }
    requires room_in_bounds { room ≤ length out.old }
    ensures puts { Puts out.old 0 (explained (parts_in input.now p)) out.new result }
    ensures upper_bound { result ≤ room }
{
    let chain = p.chain;
    let report = p.report;
    let end = p.end;
    let extent = p.extent;
    let mut storage = [0u8; 65536];
    let mut program = [0u8; 64];
    let mut restart_arguments = [0u8; 16];
    let r = recover::recover(
        Model::One,
        &input[chain..report],
        &input[report..end],
        &input[extent..],
        &mut storage,
        &mut program,
        &mut restart_arguments,
    );
    let next = explain_ccws::put_ccws(out, 0, b"ccw", 0, &input[chain..report], &input[..0], 256);
    put_reported(
        out,
        next,
        r,
        &input[report..end],
        &storage,
        &program,
        &restart_arguments,
    )
}

// What the program prints for an input, at the front of an area that has room for the longest text; how many bytes it has.
pub fn run(input: &[u8], out: &mut [u8; ROOM]) -> usize
    ensures text { Puts out.old 0 (printed input.now) out.new result }
    ensures length { result ≤ length out.new }
{
    let Some(p) = explain_input::find(input) else {
        return explain_names::put_refusal(out, 0, Question::Areas);
    };
    put_parts(input, p, out)
}
