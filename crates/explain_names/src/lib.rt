// Commands, flags, sense bits, the actions of the error table and the questions, in words.
#![tactic(auto)]

ghost use Rattle.std.specs.Prelude.{◌≡◌, ◌+◌, ◌<◌, ◌≤◌, length};
ghost use Rattle.text.specs.Text.{Puts};
ghost use Rattle.explain_names.specs.Names.{read_index, command_index, ccw_index, command_name, flag_text, flags_text, sense_name, action_name, refusal_line};

use channel::Ccw;
use drive::{Command, Read};
use questions::Question;

// ---- the command of a CCW

fn read_index(k: Read) -> usize
    ensures value { result ≡ read_index k }
    ensures upper_bound { result < 12 }
{
    if k.counts {
        if k.datas {
            return 11;
        }
        return 10;
    }
    if k.keys {
        return 9;
    }
    8
}

fn command_index(k: Command) -> usize
    ensures { result ≡ command_index k }
{
    match k {
        Command::NoOperation => 1,
        Command::Seek => 2,
        Command::SetMask => 3,
        Command::SetSector => 4,
        Command::SearchId => 5,
        Command::ReadHome => 6,
        Command::Unlisted => 7,
        Command::ReadRecord(r) => read_index(r),
        Command::SearchIdMultitrack => 12,
        Command::ReadMultitrack(r) => read_index(r) + 5,
    }
}

fn ccw_index(c: Ccw) -> usize
    ensures { result ≡ ccw_index c }
{
    if c.is_tic() {
        return 0;
    }
    command_index(Command::from(c.command))
}

pub fn put_command(out: &mut [u8], at: usize, c: Ccw) -> usize
    requires { at + 64 ≤ length out.old }
    ensures puts { Puts out.old at (command_name c) out.new result }
    ensures upper_bound { result ≤ at + 64 }
{
    let i = ccw_index(c);
    words::put_item(
        out,
        at,
        b"transfer in channel/no operation/seek/set file mask/set sector/search ID equal/read home address/unlisted command/read data/read key and data/read count/read count, key and data/search ID equal, multitrack/read data, multitrack/read key and data, multitrack/read count, multitrack/read count, key and data, multitrack",
        i,
    )
}

// ---- its flags

// A comma and the name of a flag, if it is on.
fn put_flag(out: &mut [u8], at: usize, flags: u8, k: u8) -> usize
    requires at_in_bounds { at + 66 ≤ length out.old }
    requires k_bound { k < 8 }
    ensures puts { Puts out.old at (flag_text flags k) out.new result }
    ensures upper_bound { result ≤ at + 66 }
{
    if !base::bit(flags, k) {
        return at;
    }
    let next = text::put(out, at, b", ");
    let i = base::wide(k);
    words::put_item(out, next, b"CD/CC/SLI/skip/PCI/bit 5/bit 6/bit 7", i)
}

pub fn put_flags(out: &mut [u8], at: usize, flags: u8) -> usize
    requires { at + 528 ≤ length out.old }
    ensures puts { Puts out.old at (flags_text flags) out.new result }
    ensures upper_bound { result ≤ at + 528 }
{
    let mut next = at;
    for k in 0..8 {
        next = put_flag(out, next, flags, k);
    }
    next
}

// ---- sense bits, actions of the error table, questions

// The name of bit i of sense bytes 0 to 2.
pub fn put_sense_name(out: &mut [u8], at: usize, i: usize) -> usize
    requires { at + 64 ≤ length out.old }
    ensures puts { Puts out.old at (sense_name i) out.new result }
    ensures upper_bound { result ≤ at + 64 }
{
    words::put_item(
        out,
        at,
        b"command reject/intervention required/channel bus out parity/equipment check/data check/overrun/on/on/permanent error/invalid track format/end of cylinder/on/no record found/file protected/write inhibited/operation incomplete/on/correctable/on/environmental data present/on/on/on/on",
        i,
    )
}

// The number of an action in a row of the error table.
pub fn put_action_name(out: &mut [u8], at: usize, k: u8) -> usize
    requires { at + 64 ≤ length out.old }
    ensures puts { Puts out.old at (action_name k) out.new result }
    ensures upper_bound { result ≤ at + 64 }
{
    if k == 0x16 {
        return text::put(out, at, b"6A");
    }
    let i = base::wide(k);
    words::put_item(out, at, b"/1/2/3/4/5/6/7/8/9/10/11", i)
}

// The line of a refusal: its number, and its question.
pub fn put_refusal(out: &mut [u8], at: usize, q: Question) -> usize
    requires { at + 76 ≤ length out.old }
    ensures puts { Puts out.old at (refusal_line q) out.new result }
    ensures upper_bound { result ≤ at + 76 }
{
    let n = base::wide(u8::from(q));
    let colon = status::put_refused(out, at, q);
    let question = text::put(out, colon, b": ");
    let end = words::put_item(
        out,
        question,
        b"/are all areas and limits as they must be?/is the image well formed?/is each fault well formed and its record in the image?/is the report well formed?/is the extent on the pack, first not after last?/does a row of the error table match?/is the action other than 6, 6A, 7?/for action 5: is sense byte 7 = 53?/do report and chain agree?",
        n,
    );
    text::put(out, end, b"\n")
}
