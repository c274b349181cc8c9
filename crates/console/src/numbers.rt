// Numbers as text: decimal, one a line, each line ended by 0A. They are stored in lent memory, and counted where they find
// no room there.
ghost use Rattle.std.specs.Prelude.{◌≡◌, set};
ghost use Rattle.console.specs.Numbers.{digit_after, grown, Steps, StepsOn, StepsSome, StepsAll, numbers_after, Reads, input_by};

use std::io::{Error, Read};

// What is known of a line that is not ended. No Option: an empty line and a wrong one both say no number, and differ.
#[derive(Clone, Copy)]
pub enum Line {
    // Nothing of it was read.
    Blank,
    // Digits, and the number that they say.
    Says(u64),
    // It says no number, and reading has come to its end.
    Wrong,
}

// How many lines were ended (the count holds at the most that it can say), and the line behind them.
#[derive(Clone, Copy)]
struct Numbers {
    count: u64,
    line: Line,
}

// Why the input says no numbers.
#[derive(Clone, Copy)]
pub enum InputError {
    // The line of this number, counted from 1, is the first that says none.
    WrongLine(u64),
    // It cannot be read.
    Unreadable,
}

// A digit more behind a value.
#[tactic(auto, unfolding(crate::specs::Numbers::digit_after))]
fn digit_after(value: u64, c: u8) -> Line
    ensures { result ≡ digit_after value c }
{
    if c < b'0' || b'9' < c {
        return Line::Wrong;
    }
    let digit = (c - b'0') as u64;
    if (u64::MAX - digit) / 10 < value {
        return Line::Wrong;
    }
    Line::Says(value * 10 + digit)
}

// A character more, which does not end the line.
fn grow(line: Line, c: u8) -> Line
    ensures { result ≡ grown line c }
{
    match line {
        Line::Blank => digit_after(0, c),
        Line::Says(value) => digit_after(value, c),
        Line::Wrong => Line::Wrong,
    }
}

// A number at a place, where there is that place.
fn put(out: &mut [u64], at: u64, value: u64)
    ensures { out.new ≡ set out.old at value }
{
    let i = at as usize;
    if i < out.len() {
        out[i] = value;
    }
}

// The end of a line.
fn end_line(t: Numbers, out: &mut [u64]) -> Numbers
    ensures { Steps t out.old 10 result out.new }
{
    match t.line {
        Line::Says(value) => {
            put(out, t.count, value);
            Numbers {
                count: t.count.saturating_add(1),
                line: Line::Blank,
            }
        }
        _ => Numbers {
            line: Line::Wrong,
            ..t
        },
    }
}

// One character.
fn after_char(t: Numbers, c: u8, out: &mut [u64]) -> Numbers
    ensures { Steps t out.old c result out.new }
{
    if c == 10 {
        return end_line(t, out);
    }
    Numbers {
        line: grow(t.line, c),
        ..t
    }
}

// A block of characters, in order.
fn after_chars(t: Numbers, s: &[u8], out: &mut [u64]) -> Numbers
    ensures { StepsOn t out.old s.now result out.new }
{
    let mut r = t;
    for &c in s {
        r = after_char(r, c, out);
    }
    r
}

// One read of the input: the numbers behind it, or none where the input is at its end.
fn read_some<R: Read>(input: &mut R, t: Numbers, out: &mut [u64]) -> Result<Option<Numbers>, Error>
    ensures { StepsSome t out.old (numbers_after t result) out.new }
{
    let mut block = io::buffer();
    let n = input.read(&mut block)?;
    if n == 0 {
        return Ok(None);
    }
    Ok(Some(after_chars(t, &block[..n], out)))
}

// All of the input, in turns counted as those of a text are.
fn read_to_end<R: Read>(input: &mut R, t: Numbers, out: &mut [u64]) -> Result<Numbers, Error>
    ensures { StepsAll t out.old result out.new }
{
    let mut r = t;
    for _ in 0..u64::MAX {
        let Some(next) = read_some(input, r, out)? else {
            return Ok(r);
        };
        r = next;
    }
    Ok(r)
}

// What the numbers held answer at the end of the text.
fn input_of(t: Numbers) -> Result<u64, InputError>
    ensures { result ≡ input_by t.count t.line }
{
    match t.line {
        Line::Blank => Ok(t.count),
        _ => Err(InputError::WrongLine(t.count.saturating_add(1))),
    }
}

// How many numbers the input has, stored from the front of the lent memory on; those that find no room there are only counted.
pub fn read_numbers<R: Read>(input: &mut R, out: &mut [u64]) -> Result<u64, InputError>
    ensures { Reads out.old result out.new }
{
    let fresh = Numbers {
        count: 0,
        line: Line::Blank,
    };
    let Ok(numbers) = read_to_end(input, fresh, out) else {
        return Err(InputError::Unreadable);
    };
    input_of(numbers)
}
