// The report of a unit check: its tagged fields, question 4, and what it tells recovery.
#![tactic(auto)]

ghost use Rattle.std.specs.Prelude.{◌≡◌, ◌+◌, ◌%◌, ◌<◌, ◌≤◌, length};
ghost use Rattle.base.specs.Bytes.{part};
ghost use Rattle.address.specs.Model.{last_of};
ghost use Rattle.recovery.specs.Report.{report_from, csw_from, with_mask, with_seek, with_tries};
ghost use Rattle.report.specs.Reported.{sized_at, report_of, reported_of, Reads, SeekInside, Bounds, Bounded};
ghost use Rattle.report.specs.Told.{UserAt, UserOf, UserLow, SenseTells, Tells, ToldLow};

use address::{Address, Model};
use base::{FromEnd, FromFront};
use channel::Csw;
use fields::Field;
use questions::Question;

// What a report says besides its sense bytes, which stand at 3 to 26: the CSW, the address of the read's first CCW, the file
// mask, the user's seek argument, and the tries made.
#[derive(Clone, Copy)]
pub struct Report {
    pub csw: Csw,
    pub first: usize,
    pub mask: Option<u8>,
    pub seek: Option<usize>,
    pub tries: usize,
}

// The field of one tag at a place, if its contents have n bytes.
fn sized_at(report: &[u8], at: usize, tag: u8, n: usize) -> Option<Field>
    ensures { result ≡ sized_at report.now at tag n }
{
    let f = fields::wanted_at(report, at, tag)?;
    if f.next - f.start != n {
        return None;
    }
    Some(f)
}

// The tries made, if a field says so, and nothing behind it.
fn with_tries(report: &[u8], at: usize, so_far: Report) -> Result<Report, Question>
    requires { Bounds report.now so_far }
    ensures reads { Reads with_tries report.now at so_far result }
    ensures bounded { Bounded report.now result }
{
    if report.len() <= at {
        return Ok(so_far);
    }
    let tries = sized_at(report, at, 0x15, 1).ok_or(Question::Report)?;
    if tries.next < report.len() {
        return Err(Question::Report);
    }
    Ok(Report {
        tries: base::byte(report, tries.start),
        ..so_far
    })
}

// The user's seek argument, if there is one, and the fields behind it.
fn with_seek(report: &[u8], at: usize, so_far: Report) -> Result<Report, Question>
    requires { Bounds report.now so_far }
    ensures reads { Reads with_seek report.now at so_far result }
    ensures bounded { Bounded report.now result }
{
    let Some(seek) = sized_at(report, at, 0x14, 6) else {
        return with_tries(report, at, so_far);
    };
    let sought = Report {
        seek: Some(seek.start),
        ..so_far
    };
    with_tries(report, seek.next, sought)
}

// The file mask, if one was set, and the fields behind it.
fn with_mask(report: &[u8], at: usize, so_far: Report) -> Result<Report, Question>
    requires { Bounds report.now so_far }
    ensures reads { Reads with_mask report.now at so_far result }
    ensures bounded { Bounded report.now result }
{
    let Some(mask) = sized_at(report, at, 0x13, 1) else {
        return with_seek(report, at, so_far);
    };
    let m = report[mask.start];
    if !drive::settable(m) {
        return Err(Question::Report);
    }
    let masked = Report {
        mask: Some(m),
        ..so_far
    };
    with_seek(report, mask.next, masked)
}

// The CSW in eight bytes of the report.
fn csw_in(report: &[u8], at: usize) -> Csw
    requires { at + 8 ≤ length report.now }
    ensures value { result ≡ csw_from (part report.now at (at + 8)) }
    ensures address_bound { result.address < 16777216 }
    ensures count_bound { result.count < 65536 }
{
    Csw {
        address: base::be24(report, at + 1),
        unit: report[at + 4],
        channel: report[at + 5],
        count: base::be16(report, at + 6),
    }
}

// The report that bytes are, or the refusal by question 4.
pub fn read(report: &[u8]) -> Result<Report, Question>
    ensures value { reported_of report.now result ≡ report_from report.now }
    ensures bounded { Bounded report.now result }
{
    let sense = sized_at(report, 0, 0x10, 24).ok_or(Question::Report)?;
    let csw = sized_at(report, sense.next, 0x11, 8).ok_or(Question::Report)?;
    let first = sized_at(report, csw.next, 0x12, 2).ok_or(Question::Report)?;
    if report[csw.start] != 0 {
        return Err(Question::Report);
    }
    let so_far = Report {
        csw: csw_in(report, csw.start),
        first: base::be16(report, first.start),
        mask: None,
        seek: None,
        tries: 0,
    };
    with_mask(report, first.next, so_far)
}

// ---- what it tells recovery

// What recovery reads in the 24 sense bytes: bytes 0 to 2, by which the error table chooses; the head reached in byte 6; byte 7, format
// and message; the track in 8 to 11, the record's number in 12, its sector in 13; restart displacement, error displacement and pattern
// from 15 on.
#[derive(Clone, Copy)]
pub struct Sense {
    pub track: Address,
    pub restart: FromFront,
    pub error: FromEnd,
    pub head: usize,
    pub byte0: u8,
    pub byte1: u8,
    pub byte2: u8,
    pub byte3: u8,
    pub format: u8,
    pub number: u8,
    pub sector: u8,
    pub pattern0: u8,
    pub pattern1: u8,
    pub pattern2: u8,
}

// What a report tells recovery, by value.
#[derive(Clone, Copy)]
pub struct Told {
    pub csw: Csw,
    pub first: usize,
    pub tries: usize,
    pub sense: Sense,
    pub mask: Option<u8>,
    pub user: Option<Address>,
}

// The user's seek argument, six bytes of a report, on a pack of a model.
fn user_track(m: Model, report: &[u8], at: usize) -> Option<Address>
    requires { at + 6 ≤ length report.now }
    ensures user_at { UserAt (last_of m) report.now at result }
    ensures user_low { UserLow result }
{
    if base::be16(report, at) != 0 {
        return None;
    }
    let a = Address {
        cylinder: base::be16(report, at + 2),
        head: base::be16(report, at + 4),
    };
    if !a.on_pack(m) {
        return None;
    }
    Some(a)
}

// The track of the user's seek argument in a report.
fn user_of(m: Model, report: &[u8], seek: Option<usize>) -> Option<Address>
    requires { SeekInside report.now seek }
    ensures user_of { UserOf (last_of m) report.now seek result }
    ensures user_low { UserLow result }
{
    let at = seek?;
    user_track(m, report, at)
}

// The head that the drive stood on: bits 3 to 7 of sense byte 6.
pub fn reached_head(byte6: u8) -> usize
    ensures { result ≡ byte6 % 32 }
{
    base::wide(byte6 & 0x1f)
}

// The 24 sense bytes.
fn sense_of(sense: &[u8]) -> Sense
    requires { length sense.now ≡ 24 }
    ensures { SenseTells sense.now result }
{
    Sense {
        byte0: sense[0],
        byte1: sense[1],
        byte2: sense[2],
        byte3: sense[3],
        head: reached_head(sense[6]),
        format: sense[7],
        track: Address {
            cylinder: base::be16(sense, 8),
            head: base::be16(sense, 10),
        },
        number: sense[12],
        sector: sense[13],
        restart: FromFront(base::be24(sense, 15)),
        error: FromEnd(base::be16(sense, 18)),
        pattern0: sense[20],
        pattern1: sense[21],
        pattern2: sense[22],
    }
}

// What a report tells of a read of a pack of this model, once its fields are found.
pub fn tell(m: Model, report: &[u8], r: Report) -> Told
    requires { Bounds report.now r }
    ensures tells { Tells (last_of m) (report_of report.now r) result }
    ensures told_low { ToldLow result }
{
    Told {
        sense: sense_of(&report[3..27]),
        csw: r.csw,
        first: r.first,
        mask: r.mask,
        user: user_of(m, report, r.seek),
        tries: r.tries,
    }
}
