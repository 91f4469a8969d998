// A reading's answer as a number and bytes.
#![tactic(auto)]

ghost use Rattle.std.specs.Prelude.{◌≡◌, length};
ghost use Rattle.reading_runs.specs.Conclusion.{OverLow, OutcomeLow};
ghost use Rattle.reading_answer.specs.ReadingAnswer.{how_number, stop_number, over_bytes, reading_return, reading_answer_after};

use questions::Question;
use reading_runs::{How, Over};

// What the call returns: 0 ended, "limit" or "stopped".
fn how_number(h: How) -> u8
    ensures { result ≡ how_number h }
{
    match h {
        How::Ended => 0,
        How::Limited => questions::LIMIT,
        How::Stop(_) => questions::STOPPED,
    }
}

// The number that stopped a reading, or 0.
fn stop_number(h: How) -> u8
    ensures { result ≡ stop_number h }
{
    match h {
        How::Ended => 0,
        How::Limited => 0,
        How::Stop(n) => n,
    }
}

// An answer that is no refusal.
fn put_over(answer: &mut [u8], o: Over)
    requires answer_len { length answer.old ≡ 11 }
    requires over_low { OverLow o }
    ensures { answer.new ≡ over_bytes o }
{
    location::put_csw(answer, o.csw);
    answer[8] = (o.made / 256) as u8;
    answer[9] = (o.made % 256) as u8;
    let how = o.how;
    answer[10] = stop_number(how);
}

// An answer of a reading, into an area of 11 bytes; its number.
pub fn put(answer: &mut [u8], o: Result<Over, Question>) -> u8
    requires answer_len { length answer.old ≡ 11 }
    requires outcome_low { OutcomeLow o }
    ensures value { result ≡ reading_return o }
    ensures answer_after { answer.new ≡ reading_answer_after answer.old o }
{
    match o {
        Err(q) => {
            return u8::from(q);
        }
        Ok(e) => {
            put_over(answer, e);
            let how = e.how;
            return how_number(how);
        }
    }
}
