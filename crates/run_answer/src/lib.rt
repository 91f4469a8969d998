// A run's answer as bytes.
#![tactic(auto)]

ghost use Rattle.std.specs.Prelude.{◌≡◌, [], ◌++◌, ◌<◌, ◌≤◌, length, drop};
ghost use Rattle.base.specs.Bytes.{two};
ghost use Rattle.channel.specs.Ccw.{address_of};
ghost use Rattle.drive.specs.Step as Step;
ghost use Rattle.location.specs.Low.{CswLow};
ghost use Rattle.command.specs.Answer.{sense_of, cut_of, CutLow};
ghost use Rattle.trial.specs.Run.{RanLow};
ghost use Rattle.channel.specs.Csw.{csw_bytes};
ghost use Rattle.run_answer.specs.RunAnswer.{mask_bytes, Writes, Numbers};

use channel::Csw;
use command::{Cut, Status};
use trial::Ran;

// The file mask, and the address of a cut read's first CCW, at the front of what is lent.
fn put_last(to: &mut [u8], mask: Option<u8>, first: usize)
    requires in_bounds { 4 ≤ length to.old }
    requires first_bound { first < 0x10000 }
    ensures { to.new ≡ mask_bytes mask ++ two first ++ drop 4 to.old }
{
    match mask {
        None => copy::put(to, &[0, 0, (first / 256) as u8, (first % 256) as u8]),
        Some(m) => copy::put(to, &[1, m, (first / 256) as u8, (first % 256) as u8]),
    }
}

// An end, or "limit".
fn put_end(answer: &mut [u8], w: Csw, s: Status, mask: Option<u8>)
    requires answer_len { length answer.old ≡ 36 }
    requires csw_low { CswLow w }
    ensures { answer.new ≡ csw_bytes w ++ sense_of s ++ (mask_bytes mask ++ two 0) }
{
    location::put_csw(answer, w);
    sense_bytes::put_status(&mut answer[8..], s);
    put_last(&mut answer[32..], mask, 0);
}

fn put_cut(answer: &mut [u8], k: Cut)
    requires answer_len { length answer.old ≡ 36 }
    requires cut_low { CutLow k }
    ensures { answer.new ≡ csw_bytes k.csw ++ Step.cut_sense (cut_of k []) ++ (mask_bytes k.mask ++ two (address_of k.first)) }
{
    location::put_csw(answer, k.csw);
    sense_bytes::put_cut_sense(&mut answer[8..], k);
    let mask = k.mask;
    let first = k.first;
    put_last(&mut answer[32..], mask, location::address_of(first));
}

// What a run comes to, into an area of 36 bytes.
pub fn put(answer: &mut [u8], r: Ran)
    requires answer_len { length answer.old ≡ 36 }
    requires ran_low { RanLow r }
    ensures { Writes r answer.new }
{
    match r {
        Ran::Ended(e) => {
            let status = e.status;
            let mask = e.mask;
            put_end(answer, e.csw, status, mask);
        }
        Ran::Cut(k) => {
            put_cut(answer, k);
        }
        Ran::Limited(m) => {
            let mask = m.mask;
            put_end(answer, m.csw, Status::Quiet, mask);
        }
    }
}

// What the call returns: "limit", or 0 for any other end.
pub fn number(r: Ran) -> u8
    ensures { Numbers r result }
{
    match r {
        Ran::Ended(_) => 0,
        Ran::Cut(_) => 0,
        Ran::Limited(_) => questions::LIMIT,
    }
}
