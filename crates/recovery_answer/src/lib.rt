// Recovery's answer as a number and bytes.
#![tactic(auto)]

ghost use Rattle.std.specs.Prelude.{◌≡◌, length};
ghost use Rattle.location.specs.Low.{CswLow};
ghost use Rattle.recovered.specs.Applied.{RecoveredLow};
ghost use Rattle.recovery_answer.specs.RecoveryAnswer.{recovery_return, no_csw, bytes_with, recovery_answer_after};

use channel::Csw;
use recovered::Recovered;

// A CSW of zeros.
fn no_csw() -> Csw
    ensures value { result ≡ no_csw }
    ensures csw_low { CswLow result }
{
    Csw {
        address: 0,
        unit: 0,
        channel: 0,
        count: 0,
    }
}

// An answer that is no refusal.
fn put_with(answer: &mut [u8], what: u8, action: u8, w: Csw) -> u8
    requires answer_len { length answer.old ≡ 10 }
    requires csw_low { CswLow w }
    ensures value { result ≡ 0 }
    ensures answer_after { answer.new ≡ bytes_with what action w }
{
    answer[0] = what;
    answer[1] = action;
    location::put_csw(&mut answer[2..], w);
    0
}

// An answer of recovery, into an area of 10 bytes; its number.
pub fn put(answer: &mut [u8], r: Recovered) -> u8
    requires answer_len { length answer.old ≡ 10 }
    requires recovered_low { RecoveredLow r }
    ensures value { result ≡ recovery_return r }
    ensures answer_after { answer.new ≡ recovery_answer_after answer.old r }
{
    match r {
        Recovered::Refused(q) => {
            return u8::from(q);
        }
        Recovered::ActionOne => {
            return put_with(answer, 1, 0, no_csw());
        }
        Recovered::ActionTwo => {
            return put_with(answer, 2, 0, no_csw());
        }
        Recovered::Repeat => {
            return put_with(answer, 3, 0, no_csw());
        }
        Recovered::CorrectedOnly => {
            return put_with(answer, 4, 0x05, no_csw());
        }
        Recovered::Finished(w) => {
            return put_with(answer, 5, 0x05, w);
        }
        Recovered::Restart(k) => {
            return put_with(answer, 6, u8::from(k), no_csw());
        }
    }
}
