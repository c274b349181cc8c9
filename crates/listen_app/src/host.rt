// A host keeps a board hearing, block by block, and tells each line that is judged.
ghost use Rattle.std.specs.Prelude.{◌≡◌, ◌+◌, ◌≤◌, min, length, take};
ghost use Rattle.tide.specs.DecoderRep.{most_count};
ghost use Rattle.board.specs.BoardRep.{plain_of};
ghost use Rattle.listen_app.specs.Host.{fresh_host, renewed, with_lines, with_unheard, heard_piece, heard_eights, eights_in, heard_block};
ghost use Rattle.listen_app.specs.HostRep.{host_of, most_lines, Hosts, Writes};

use bell103::Role;
use board::Board;
use console::{print_answer, print_reading};
use tide::Reading;

// The most lines that a write can end.
const MOST_LINES: usize = 103;

#[derive(Clone, Copy)]
pub struct Host {
    // What a fresh board takes.
    rate: u32,
    station: u16,
    role: Role,
    board: Board,
    // Lines judged, and samples not heard. Each count holds at the most that it can say.
    lines: u64,
    unheard: u64,
    // Whether all so far was written to standard output. Once something was not, nothing more is.
    told: bool,
}

// A host after a write, and the number that refused the write, or 0. Numbers, as the board's definition says which (31 and 4 are told apart).
#[derive(Clone, Copy)]
pub struct Attempt {
    host: Host,
    number: u32,
}

// The number of lines, and whether they were told. No Option: lines that are not told are counted too.
#[derive(Clone, Copy)]
struct Told {
    lines: u64,
    told: bool,
}

// A line's number and answer; behind one that is shown, the reading.
fn tell_line(told: bool, line: u64, answer: u8, station: u16, shown: Option<Reading>) -> bool {
    told && print_answer(line, answer) && (answer != 0 || print_reading(station, shown))
}

// Each line of a write.
fn tell_lines(lines: u64, told: bool, verdicts: &[u8], station: u16, shown: Option<Reading>) -> Told
    ensures { result.lines ≡ min (lines + length verdicts.now) most_count }
{
    let mut k = lines;
    let mut ok = told;
    for &answer in verdicts {
        k = k.saturating_add(1);
        ok = tell_line(ok, k, answer, station, shown);
    }
    Told { lines: k, told: ok }
}

// That a fresh board begins, and that it shows nothing yet.
fn tell_fresh(told: bool, station: u16, shown: Option<Reading>) -> bool {
    told && io::write_all(1, b"! 31\n") && print_reading(station, shown)
}

// How many samples were not heard, where there are any.
fn tell_unheard(n: u64) -> bool {
    n == 0 || io::write_all(1, b"! 4 ") && io::print_decimal(1, n) && io::write_all(1, b"\n")
}

// Eight places on, or the end.
fn eight_on(at: usize, end: usize) -> usize
    requires { at ≤ end }
    ensures { result ≡ min (at + 8) end }
{
    at + (end - at).min(8)
}

impl Host {
    pub fn new(rate: u32, station: u16, role: Role) -> Host
        ensures { Hosts (fresh_host rate station role) result }
    {
        let made = Board::new(rate, station, role);
        let board = made.state;
        Host {
            rate,
            station,
            role,
            board,
            lines: 0,
            unheard: 0,
            told: true,
        }
    }

    // The same at another rate, from fresh.
    pub fn with_rate(self, rate: u32) -> Host
        ensures { Hosts (fresh_host rate self.station self.role) result }
    {
        Host::new(rate, self.station, self.role)
    }

    // With a fresh board, which shows nothing until it has heard a good line.
    fn start_again(self) -> Host
        ensures { Hosts (renewed (host_of self)) result }
    {
        let made = Board::new(self.rate, self.station, self.role);
        let board = made.state;
        let told = tell_fresh(self.told, self.station, board.reading());
        Host {
            board,
            told,
            ..self
        }
    }

    // With the board after a write that was heard, whose lines are told.
    fn heard(self, board: Board, verdicts: &[u8]) -> Host
        ensures { (host_of result ≡ with_lines (host_of self) (plain_of board) (length verdicts.now)) × (result.board ≡ board) }
    {
        let t = tell_lines(
            self.lines,
            self.told,
            verdicts,
            self.station,
            board.reading(),
        );
        Host {
            board,
            lines: t.lines,
            told: t.told,
            ..self
        }
    }

    // With so many samples that were not heard.
    fn missed(mut self, n: usize) -> Host
        ensures { (host_of result ≡ with_unheard (host_of self) n) × (result.board ≡ self.board) }
    {
        self.unheard = self.unheard.saturating_add(n as u64);
        self
    }

    // One write.
    fn write(self, samples: &[f32]) -> Attempt
        ensures { Writes self samples.now result }
    {
        let board = self.board;
        let mut verdicts = [0u8; MOST_LINES];
        let w = board.write_into(samples, &mut verdicts);
        let next = w.state;
        let answer = w.answer;
        match answer {
            Err(why) => Attempt {
                host: self.missed(samples.len()),
                number: u32::from(why),
            },
            Ok(x) => {
                let n = x.lines as usize;
                Attempt {
                    host: self.heard(next, &verdicts[..n]),
                    number: 0,
                }
            }
        }
    }

    // What a piece makes of this host, once it was written: where the board has no room left for it, a fresh one hears it.
    fn with_room(self, a: Attempt, samples: &[f32]) -> Host
        requires { Writes self samples.now a }
        ensures { Hosts (heard_piece (host_of self) samples.now) result }
    {
        if a.number == 31 {
            let again = self.start_again().write(samples);
            return again.host;
        }
        a.host
    }

    fn write_piece(self, samples: &[f32]) -> Host
        ensures { Hosts (heard_piece (host_of self) samples.now) result }
    {
        let a = self.write(samples);
        self.with_room(a, samples)
    }

    // The eight samples in front, or what there is.
    fn write_front(self, samples: &[f32]) -> Host
        ensures { Hosts (heard_piece (host_of self) (take 8 samples.now)) result }
    {
        if samples.len() < 8 {
            return self.write_piece(samples);
        }
        self.write_piece(&samples[..8])
    }

    // Eight by eight.
    fn write_eights(self, samples: &[f32]) -> Host
        ensures { Hosts (heard_eights (eights_in (length samples.now)) (host_of self) samples.now) result }
    {
        let mut host = self;
        let mut at = 0;
        let mut left = samples.len() / 8 + (samples.len() % 8 + 7) / 8;
        while left > 0 {
            host = host.write_front(&samples[at..]);
            at = eight_on(at, samples.len());
            left -= 1;
        }
        host
    }

    // The next block: whole, or in eights where a sample of it is refused.
    pub fn write_block(self, samples: &[f32]) -> Host
        ensures { Hosts (heard_block (host_of self) samples.now) result }
    {
        let a = self.write(samples);
        if a.number == 4 {
            return self.write_eights(samples);
        }
        self.with_room(a, samples)
    }

    // Whether all so far was told.
    pub fn is_told(self) -> bool
        ensures { result ≡ self.told }
    {
        self.told
    }

    // How many samples were not heard, where there are any; then the reading.
    pub fn tell_reading(self) -> bool {
        tell_unheard(self.unheard) && print_reading(self.station, self.board.reading())
    }
}
