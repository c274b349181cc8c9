// A line's answer, and the reading after it.
ghost use Rattle.std.specs.Prelude.{◌≡◌, ◌≤◌};
ghost use Rattle.hexadecimal.specs.Hex.{unhex};
ghost use Rattle.tide.specs.Frame as frame;
ghost use Rattle.tide.specs.Judge as judging;
ghost use Rattle.tide.specs.Judge.{damage_of, of_fields, judged_of, of_line, reading_of, settle, judge};
ghost use Rattle.tide.specs.JudgeRep.{number_of, number_in, read_of, shown_of, verdict_of};

use crate::frame::{Frame, level_of};
use hexadecimal::{byte, sum, test_digits};

// The water minute, and the level in centimetres.
#[derive(Clone, Copy)]
pub struct Reading {
    pub water: u32,
    pub level: i16,
}

// A line's answer, by the number that goes into lent memory and to C, and what is shown after it.
#[derive(Clone, Copy)]
pub struct Judged {
    pub answer: u8,
    pub reading: Option<Reading>,
}

// Why a line is not good.
#[derive(Clone, Copy)]
pub enum Fault {
    TooLong,
    OddOrShort,
    NotHexadecimal,
    Length,
    Sum,
    VersionMisfit,
    ForNewerReaders,
    OtherStation,
    Age,
    LevelMissing,
}

impl From<Fault> for u8 {
    ghost from_gives = { λ fault n. n ≡ number_of fault };

    fn from(fault: Fault) -> u8 {
        match fault {
            Fault::TooLong => 11,
            Fault::OddOrShort => 12,
            Fault::NotHexadecimal => 13,
            Fault::Length => 14,
            Fault::Sum => 15,
            Fault::VersionMisfit => 16,
            Fault::ForNewerReaders => 17,
            Fault::OtherStation => 18,
            Fault::Age => 19,
            Fault::LevelMissing => 20,
        }
    }
}

// Whether 16 applies: a version v, a least reader f and n bytes that don't go together.
fn misfit(v: u32, f: u32, n: usize) -> bool
    ensures { result ≡ frame.misfit v f n }
{
    v == 0 || f == 0 || v < f || (v == 1 && n != 13)
}

// The first of 18, 19 and 20 that applies.
#[tactic(auto, unfolding(crate::specs::Judge::of_fields, refusal::specs::Refusals::first))]
fn check_fields(mine: u32, station: u32, stamp: u32, age: u32, level: u32) -> Result<(), Fault>
    ensures { number_in result ≡ of_fields mine station stamp age level }
{
    if station != mine {
        return Err(Fault::OtherStation);
    }
    if age == 255 || stamp < age {
        return Err(Fault::Age);
    }
    if level == 32768 {
        return Err(Fault::LevelMissing);
    }
    Ok(())
}

// The first of 11 to 16 that applies to a line; where none does, it is intact.
#[tactic(auto, unfolding(crate::specs::Judge::damage_of, refusal::specs::Refusals::first))]
fn check_frame(s: &[u8], more: bool) -> Result<(), Fault>
    ensures { number_in result ≡ damage_of s.now more }
{
    let n = s.len();
    if more || 64 < n {
        return Err(Fault::TooLong);
    }
    if n < 26 || n % 2 == 1 {
        return Err(Fault::OddOrShort);
    }
    let None = test_digits(s) else {
        return Err(Fault::NotHexadecimal);
    };
    let bytes = n / 2;
    let said = byte(s, 2) as usize;
    if said != bytes {
        return Err(Fault::Length);
    }
    if sum(s) != 0 {
        return Err(Fault::Sum);
    }
    if misfit(byte(s, 0), byte(s, 1), bytes) {
        return Err(Fault::VersionMisfit);
    }
    Ok(())
}

// The first of 17 to 20 that applies to a frame.
#[tactic(auto, unfolding(crate::specs::Judge::judged_of, refusal::specs::Refusals::first))]
fn check_said(f: Frame, mine: u32) -> Result<(), Fault>
    ensures { number_in result ≡ judged_of mine (unhex f.entry.line.now) }
{
    if 1 < f.reader() {
        return Err(Fault::ForNewerReaders);
    }
    check_fields(mine, f.station(), f.stamp(), f.age(), f.level_bits())
}

// The first of 11 to 20 that applies to a line; where none does, it is good.
fn check_line(s: &[u8], more: bool, mine: u32) -> Result<(), Fault>
    ensures { number_in result ≡ of_line mine s.now more }
{
    check_frame(s, more)?;
    check_said(Frame::new(s), mine)
}

// What a good line's frame says of the water.
#[tactic(auto, unfolding(crate::specs::Judge::reading_of, crate::specs::Frame::water_of))]
fn reading_of(f: Frame) -> Reading
    requires { frame.age_of (unhex f.line.now) ≤ frame.stamp_of (unhex f.line.now) }
    ensures { read_of result ≡ reading_of (unhex f.entry.line.now) }
{
    Reading {
        water: f.stamp() - f.age(),
        level: level_of(f.level_bits()),
    }
}

// Whether a reading replaces what stands.
#[tactic(auto, unfolding(crate::specs::Judge::later))]
fn later(r: Option<Reading>, g: Reading) -> bool
    ensures { result ≡ judging.later (shown_of r) (read_of g) }
{
    match r {
        None => true,
        Some(stands) => stands.water < g.water,
    }
}

// What becomes of a good line, on what stands.
#[tactic(auto, unfolding(crate::specs::Judge::settle))]
fn settled(r: Option<Reading>, g: Reading) -> Judged
    ensures { verdict_of result ≡ settle 0 (shown_of r) (read_of g) }
{
    if later(r, g) {
        return Judged {
            answer: 0,
            reading: Some(g),
        };
    }
    Judged {
        answer: 34,
        reading: r,
    }
}

// The judgement of a line, on what stands.
pub fn judge_line(s: &[u8], more: bool, mine: u32, r: Option<Reading>) -> Judged
    ensures { verdict_of result ≡ judge mine (shown_of r) s.now more }
{
    if let Err(fault) = check_line(s, more, mine) {
        return Judged {
            answer: u8::from(fault),
            reading: r,
        };
    }
    settled(r, reading_of(Frame::new(s)))
}
