// The decoder: the unended line, whether what comes is skipped, the reading and the counts, and what is heard does to them.
ghost use Rattle.std.specs.Prelude.{◌≡◌, ◌≤◌, ◌+◌, ◌<◌, length, set};
ghost use Rattle.tide.specs.Decoder.{bump, place_in};
ghost use Rattle.tide.specs.Held.{most_count, held};

use crate::judge::{Reading, judge_line};
use happenings::{Happening, happening_of};

// A line: its first 64 characters, and whether there were more. An array with a count, since memory is fixed.
#[derive(Clone, Copy)]
pub struct Line {
    chars: [u8; 64],
    len: usize,
    more: bool,
    ghost short: { len ≤ 64 },
    ghost room: { length chars ≡ 64 },
}

// What is heard changes: the station's unended line, whether what comes is skipped, its reading, and its counts.
#[derive(Clone, Copy)]
pub struct Decoder {
    station: u16,
    line: Line,
    // From a lost carrier up to and including the next 0A.
    skipping: bool,
    reading: Option<Reading>,
    // One for each line answer: 0, 11 to 20, 34.
    counts: [u64; 12],
    pub ghost places: { length counts ≡ 12 },
    pub ghost within: { held counts ≡ counts },
}

// What a happening did: the answer of the line that it ended, if it ended one.
#[derive(Clone, Copy)]
pub struct Step {
    pub decoder: Decoder,
    pub answer: Option<u8>,
}

// What was heard did: how many lines it ended, and the last one's answer.
#[derive(Clone, Copy)]
pub struct Fed {
    pub decoder: Decoder,
    pub lines: u64,
    pub last: u8,
}

// Which count an answer has; a number that is no answer has none.
#[tactic(auto, unfolding(crate::specs::Decoder::place, crate::specs::Decoder::place_in))]
fn place_of(answer: u8) -> Option<usize>
    ensures { result ≡ place_in answer }
{
    match answer {
        0 => Some(0),
        11..=20 => Some((answer as usize) - 10),
        34 => Some(11),
        _ => None,
    }
}

// The counts with one more at an answer, where it holds.
#[tactic(auto, using(crate::proofs::Stores::place_some))]
fn counted(mut counts: [u64; 12], answer: u8) -> [u64; 12]
    requires { (length counts ≡ 12) × (held counts ≡ counts) }
    ensures { result ≡ held (bump counts answer) }
{
    if let Some(place) = place_of(answer) {
        counts[place] = counts[place].saturating_add(1);
    }
    counts
}

// Stores an answer at its place, where there is room.
fn lay(verdicts: &mut [u8], place: u64, answer: u8)
    ensures { verdicts.new ≡ set verdicts.old place answer }
{
    // An index: `get_mut` does not say what the slice is after it.
    let place = place as usize;
    if place < verdicts.len() {
        verdicts[place] = answer;
    }
}

impl Line {
    ghost use Rattle.tide.specs.Decoder.{longer, empty_line};
    ghost use Rattle.tide.specs.DecoderRep.{line_of};

    fn new() -> Line
        ensures { line_of result ≡ empty_line }
    {
        Line {
            chars: [0; 64],
            len: 0,
            more: false,
        }
    }

    fn longer(mut self, c: u8) -> Line
        ensures { line_of result ≡ longer (line_of self) c }
    {
        if self.len < 64 {
            self.chars[self.len] = c;
            self.len += 1;
            return self;
        }
        self.more = true;
        self
    }

    fn emptied(mut self) -> Line
        ensures { line_of result ≡ empty_line }
    {
        self.len = 0;
        self.more = false;
        self
    }
}

impl Decoder {
    ghost use Rattle.std.specs.Prelude.{if◌then◌else◌};
    ghost use Rattle.happenings.specs.Happening.{happenings_of};
    ghost use Rattle.happenings.specs.declared.happening.Happening.TheVariants.{Byte};
    ghost use Rattle.tide.specs.Decoder.{count_of, ends, grows, loses, resumes, stays, move_of};
    ghost use Rattle.tide.specs.JudgeRep.{shown_of};
    ghost use Rattle.tide.specs.DecoderRep.{decoder_of, Made, Stepped, Feeds};

    // A fresh decoder for a station.
    pub fn new(station: u16) -> Decoder
        ensures { Made station result }
    {
        Decoder {
            station,
            line: Line::new(),
            skipping: false,
            reading: None,
            counts: [0; 12],
        }
    }

    // The line is judged, counted and emptied.
    fn end_line(self) -> Step
        ensures { Stepped self ends result }
    {
        let line = self.line;
        let text = &line.chars[..line.len];
        let judged = judge_line(text, line.more, self.station as u32, self.reading);
        let mut decoder = self;
        decoder.line = line.emptied();
        decoder.reading = judged.reading;
        decoder.counts = counted(self.counts, judged.answer);
        Step {
            decoder,
            answer: Some(judged.answer),
        }
    }

    // The line is one character longer.
    fn grow(mut self, c: u8) -> Step
        ensures { Stepped self (grows c) result }
    {
        self.line = self.line.longer(c);
        Step {
            decoder: self,
            answer: None,
        }
    }

    // The line is dropped; what comes is skipped, or no more.
    fn clear(mut self, skip: bool) -> Step
        ensures { Stepped self (if skip then loses else resumes) result }
    {
        self.line = self.line.emptied();
        self.skipping = skip;
        Step {
            decoder: self,
            answer: None,
        }
    }

    // Nothing changes.
    fn stay(self) -> Step
        ensures { Stepped self stays result }
    {
        Step {
            decoder: self,
            answer: None,
        }
    }

    // Takes one byte: 0A ends the line, or what is skipped.
    #[tactic(auto, unfolding(crate::specs::Decoder::move_of, crate::specs::Decoder::byte_move))]
    pub fn add_byte(self, c: u8) -> Step
        ensures { Stepped self (move_of (Byte c) self.skipping) result }
    {
        if self.skipping {
            if c == 10 {
                return self.clear(false);
            }
            return self.stay();
        }
        if c == 10 {
            return self.end_line();
        }
        self.grow(c)
    }

    // Takes what happened at a step: a byte; or the carrier was lost, which voids the line.
    #[tactic(auto, unfolding(crate::specs::Decoder::move_of))]
    pub fn take(self, h: Happening) -> Step
        ensures { Stepped self (move_of h self.skipping) result }
    {
        match h {
            Happening::Byte(c) => self.add_byte(c),
            Happening::BadStop => self.stay(),
            Happening::Lost => self.clear(true),
            Happening::Up => self.stay(),
            Happening::Down => self.stay(),
        }
    }

    // Takes what was heard, in order, by its codes; the answers of the lines that it ends go to the front of `verdicts`, as many as have
    // room there.
    pub fn feed(self, codes: &[u16], verdicts: &mut [u8]) -> Fed
        ensures { Feeds self (happenings_of codes.now) verdicts.old result verdicts.new }
    {
        let mut f = Fed {
            decoder: self,
            lines: 0,
            last: 0,
        };
        for &code in codes {
            f = f.after(happening_of(code), verdicts);
        }
        f
    }

    // The station that it reads for.
    pub fn station(self) -> u16
        ensures { result ≡ (decoder_of self).station }
    {
        self.station
    }

    // What the decoder shows.
    pub fn reading(self) -> Option<Reading>
        ensures { shown_of result ≡ (decoder_of self).reading }
    {
        self.reading
    }

    // How often each answer was given: 0, 11 to 20, 34.
    pub fn counts(self) -> [u64; 12]
        ensures { result ≡ (decoder_of self).counts }
    {
        self.counts
    }

    // How often an answer was given; 0 for a number that is no answer.
    #[tactic(auto, using(crate::proofs::Stores::place_some))]
    pub fn count(self, answer: u8) -> u64
        ensures { result ≡ count_of (decoder_of self) answer }
    {
        match place_of(answer) {
            Some(place) => self.counts[place],
            None => 0,
        }
    }
}

impl Fed {
    ghost use Rattle.tide.specs.DecoderRep.{FedOne};

    // A happening more: the decoder, the lines ended so far, the last one's answer, and all answers.
    fn after(self, h: Happening, verdicts: &mut [u8]) -> Fed
        requires { self.lines < most_count }
        ensures { FedOne self h verdicts.old result verdicts.new }
    {
        let Step { decoder, answer } = self.decoder.take(h);
        let Some(answer) = answer else {
            return Fed { decoder, ..self };
        };
        lay(verdicts, self.lines, answer);
        Fed {
            decoder,
            lines: self.lines + 1,
            last: answer,
        }
    }
}
