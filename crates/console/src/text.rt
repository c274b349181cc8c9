// Tide lines as text: each line of standard input is judged for a station, and its number and answer are printed; then the reading. What
// prints answers whether all was written; once something was not, nothing more is.
ghost use Rattle.std.specs.Prelude.{◌≡◌, IfOk, IfErr, IfSome};
ghost use Rattle.tide.specs.DecoderRep.{Sound};
ghost use Rattle.console.specs.Text.{Taken, Read, ReadSome, Judges};

use std::io::Read;
use tide::{Decoder, Reading};

// The decoder, how many lines it has judged (the count holds at the most that it can say), and whether all answers so far were written.
#[derive(Clone, Copy)]
pub struct Text {
    pub decoder: Decoder,
    pub lines: u64,
    pub told: bool,
}

// A line's number and its answer.
pub fn print_answer(line: u64, answer: u8) -> bool {
    io::print_decimal(1, line)
        && io::write_all(1, b" ")
        && io::print_decimal(1, answer as u64)
        && io::write_all(1, b"\n")
}

// A number, with a sign where it is below zero.
pub fn print_signed(n: i16) -> bool {
    (n >= 0 || io::write_all(1, b"-")) && io::print_decimal(1, n.unsigned_abs() as u64)
}

// A space, and a number.
pub fn print_field(n: u64) -> bool {
    io::write_all(1, b" ") && io::print_decimal(1, n)
}

// Water minute and level, each behind a space.
fn print_water(reading: Reading) -> bool {
    print_field(reading.water as u64) && io::write_all(1, b" ") && print_signed(reading.level)
}

// Station, water minute and level, each behind a space.
fn print_fields(station: u16, reading: Reading) -> bool {
    print_field(station as u64) && print_water(reading)
}

// `P`, then water minute and level: what several gauges show together.
pub fn print_pooled(reading: Reading) -> bool {
    io::write_all(1, b"P") && print_water(reading) && io::write_all(1, b"\n")
}

// `R`, then station, water minute and level where there is a reading.
pub fn print_reading(station: u16, shown: Option<Reading>) -> bool {
    let fields = match shown {
        None => io::write_all(1, b"R"),
        Some(reading) => io::write_all(1, b"R") && print_fields(station, reading),
    };
    fields && io::write_all(1, b"\n")
}

// The next answer, where all before were written.
fn tell(told: bool, line: u64, answer: u8) -> bool {
    told && print_answer(line, answer)
}

// One byte. Where it ends a line, the answer is printed.
fn after_byte(t: Text, c: u8) -> Text
    requires { Sound t.decoder }
    ensures { Taken t c result }
{
    let s = t.decoder.add_byte(c);
    let Some(answer) = s.answer else {
        return Text {
            decoder: s.decoder,
            ..t
        };
    };
    let k = t.lines.saturating_add(1);
    let told = tell(t.told, k, answer);
    Text {
        decoder: s.decoder,
        lines: k,
        told,
    }
}

// A block of bytes, in order.
fn after_block(t: Text, s: &[u8]) -> Text
    requires { Sound t.decoder }
    ensures { Read t s.now result }
{
    let mut r = t;
    for &c in s {
        r = after_byte(r, c);
    }
    r
}

// One read of the input: the text behind it, or none where the input is at its end. A read that fails answers the text before it.
fn read_block<R: Read>(input: &mut R, t: Text) -> Result<Option<Text>, Text>
    requires { Sound t.decoder }
    ensures read { IfOk result (λ read. IfSome read (ReadSome t)) }
    ensures failed { IfErr result (ReadSome t) }
{
    let mut block = io::buffer();
    let Ok(n) = input.read(&mut block) else {
        return Err(t);
    };
    if n == 0 {
        return Ok(None);
    }
    Ok(Some(after_block(t, &block[..n])))
}

// All of the input, while its answers are written. A proved loop has to end, and nothing says that the input does: the loop counts its turns,
// up to a number that no run reaches. Where a read failed the text is that of the reads before it.
fn read_all<R: Read>(input: &mut R, t: Text) -> Result<Text, Text>
    requires { Sound t.decoder }
    ensures read { IfOk result (ReadSome t) }
    ensures failed { IfErr result (ReadSome t) }
{
    let mut r = t;
    for _ in 0..u64::MAX {
        let next = match read_block(input, r) {
            Ok(Some(next)) => next,
            Ok(None) => return Ok(r),
            Err(before) => return Err(before),
        };
        r = next;
        if !r.told {
            return Ok(r);
        }
    }
    Ok(r)
}

// The lines of the input, judged for a station by a fresh decoder.
fn judge_input<R: Read>(input: &mut R, station: u16) -> Result<Text, Text>
    ensures read { IfOk result (Judges station) }
    ensures failed { IfErr result (Judges station) }
{
    let fresh = Text {
        decoder: Decoder::new(station),
        lines: 0,
        told: true,
    };
    read_all(input, fresh)
}

// The reading, where all answers were written.
fn tell_reading(station: u16, t: Text) -> bool {
    t.told && print_reading(station, t.decoder.reading())
}

// Judges the lines of the input, which is standard input, for a station. What failed is told in one line on standard error, and no reading
// follows it.
pub fn run<R: Read>(input: &mut R, station: u16) {
    let Ok(text) = judge_input(input, station) else {
        io::write_all(2, b"tideline: standard input cannot be read\n");
        return;
    };
    if !tell_reading(station, text) {
        io::write_all(2, b"tideline: standard output cannot be written\n");
    }
}
