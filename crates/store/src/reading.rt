// The settings that a store holds.
ghost use Rattle.std.specs.Prelude.{◌≡◌, [], ◌≤◌, ◌<◌, length, take, None};
ghost use Rattle.refusal.specs.Refusals.{reply_in};
ghost use Rattle.store.specs.Store.{store_of, lines_from, last_good, unknowns, read_of};
ghost use Rattle.store.specs.StoreRep.{passed_line, passed};

use crate::line::{Flaw, Settings, judge};
use refusal::Refusal;

// The settings of the last good line, and how many lines of unknown version were passed over.
#[derive(Clone, Copy)]
pub struct Found {
    pub settings: Settings,
    pub unknown: usize,
}

// What the bytes so far say, and where the line that is not ended began.
#[derive(Clone, Copy)]
pub struct Scan {
    start: usize,
    latest: Option<Settings>,
    unknown: usize,
}

// How many bytes of the buffer are the store.
pub(crate) fn store_len(buffer: &[u8]) -> usize
    ensures { (result ≤ length buffer.now) × (take result buffer.now ≡ store_of buffer.now) }
{
    buffer.len().min(256)
}

// A line passed: the next one begins at `next`.
fn pass_line(f: Scan, line: Result<Settings, Flaw>, next: usize) -> Scan
    requires { f.unknown < next }
    ensures { result ≡ passed_line f line next }
{
    let passed = Scan { start: next, ..f };
    match line {
        Ok(settings) => Scan {
            latest: Some(settings),
            ..passed
        },
        Err(Flaw::UnknownVersion) => Scan {
            unknown: f.unknown + 1,
            ..passed
        },
        Err(Flaw::Damaged) => passed,
    }
}

// One byte passed: 0A ends a line.
#[tactic(auto, unfolding(crate::specs::StoreRep::passed))]
fn pass_byte(f: Scan, s: &[u8], i: usize) -> Scan
    requires { (f.start ≤ i) × (f.unknown ≤ i) × (i < length s.now) }
    ensures { result ≡ passed f s.now i }
{
    if s[i] != 10 {
        return f;
    }
    pass_line(f, judge(&s[f.start..i]), i + 1)
}

// All bytes of a store, in one pass.
fn pass_all(s: &[u8]) -> Scan
    ensures { (result.latest ≡ last_good None (lines_from [] s.now)) × (result.unknown ≡ unknowns (lines_from [] s.now)) }
{
    let mut f = Scan {
        start: 0,
        latest: None,
        unknown: 0,
    };
    // An index: a line is a part of the slice that ends at it.
    for i in 0..s.len() {
        f = pass_byte(f, s, i);
    }
    f
}

// The settings that count in the store, or 40.
pub fn read(buffer: &[u8]) -> Result<Found, Refusal>
    ensures { reply_in result ≡ read_of buffer.now }
{
    let n = store_len(buffer);
    let f = pass_all(&buffer[..n]);
    match f.latest {
        None => Err(Refusal::NoSettings),
        Some(settings) => Ok(Found {
            settings,
            unknown: f.unknown,
        }),
    }
}
