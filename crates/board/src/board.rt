// The board: what hears, and the decoder that judges the lines.
ghost use Rattle.std.specs.Prelude.{◌≡◌, ◌≤◌, ◌+◌, ◌*◌};
ghost use Rattle.framing.specs.Framing.{held};
ghost use Rattle.hexadecimal.specs.Hex.{total};
ghost use Rattle.modem.specs.ListenerRep.{demod_of};

use crate::counts::sum_of;
use crate::station::check_station;
use bell103::Role;
use happenings::tally_of;
use modem::{Kind, Listener};
use refusal::{Answered, Refusal};
use tide::{Decoder, Reading};

#[derive(Clone, Copy)]
pub struct Board {
    listener: Listener,
    decoder: Decoder,
    pub ghost few: { 10 * total decoder.counts + held (demod_of listener).inner.deframer ≤ 3 * listener.accepted },
}

// Of an accepted write: bytes heard, lines ended, the last one's answer, 0 also when none ended, and bad stops.
#[derive(Clone, Copy)]
pub struct Summary {
    pub bytes: u64,
    pub lines: u64,
    pub last: u8,
    pub bad_stops: u64,
}

impl Board {
    ghost use Rattle.happenings.specs.Happening.{happenings_of};
    ghost use Rattle.tide.specs.JudgeRep.{shown_of};
    ghost use Rattle.tide.specs.Decoder.{count_of};
    ghost use Rattle.board.specs.Plain.{decoder};
    ghost use Rattle.board.specs.BoardRep.{plain_of, Makes, Writes, WritesInto, Judgeable, JudgesAll};

    // Hands what was heard to the decoder, in order.
    fn judge_all(
        listener: Listener,
        decoder: Decoder,
        codes: &[u16],
        verdicts: &mut [u8],
    ) -> Answered<Board, Summary>
        requires { Judgeable listener decoder (happenings_of codes.now) }
        ensures { JudgesAll listener decoder (happenings_of codes.now) verdicts.old result verdicts.new }
    {
        let f = decoder.feed(codes, verdicts);
        let tally = tally_of(codes);
        let state = Board {
            listener,
            decoder: f.decoder,
        };
        let heard = Summary {
            bytes: tally.bytes as u64,
            lines: f.lines,
            last: f.last,
            bad_stops: tally.bad_stops as u64,
        };
        Answered {
            answer: Ok(heard),
            state,
        }
    }

    pub fn new(rate: u32, station: u16, role: Role) -> Answered<Board, ()>
        ensures { Makes rate station role result }
    {
        let made = Listener::new(Kind::ForBoard, rate, role);
        Answered {
            answer: check_station(made.answer, station),
            state: Board {
                listener: made.state,
                decoder: Decoder::new(station),
            },
        }
    }

    // The next samples, in order and gapless; the answers of the lines that they end go to the front of `verdicts`, as many as have room there.
    // 103 places are enough for any write. Refused, it leaves them as they were.
    pub fn write_into(self, samples: &[f32], verdicts: &mut [u8]) -> Answered<Board, Summary>
        ensures { WritesInto self samples.now verdicts.old result verdicts.new }
    {
        let mut codes = [0u16; 2052];
        let w = self.listener.hear(samples, &mut codes);
        match w.answer {
            Err(why) => Answered {
                answer: Err(why),
                state: self,
            },
            Ok(()) => Board::judge_all(w.state, self.decoder, &codes[..w.count], verdicts),
        }
    }

    // The same, for a caller that wants no more than the last line's answer.
    pub fn write(self, samples: &[f32]) -> Answered<Board, Summary>
        ensures { Writes self samples.now result }
    {
        let mut verdicts = [0u8; 1];
        self.write_into(samples, &mut verdicts)
    }

    // What the board shows: nothing, or the water minute and the level.
    #[tactic(auto, unfolding(crate::specs::BoardRep::plain_of))]
    pub fn reading(self) -> Option<Reading>
        ensures { shown_of result ≡ (plain_of self).reading }
    {
        self.decoder.reading()
    }

    // How often a line got this answer; 0 for a number that is no answer of a line.
    #[tactic(auto, unfolding(crate::specs::BoardRep::plain_of))]
    pub fn count(self, answer: u8) -> u64
        ensures { result ≡ count_of (decoder (plain_of self)) answer }
    {
        self.decoder.count(answer)
    }

    // How often each answer was given: 0, 11 to 20, 34.
    #[tactic(auto, unfolding(crate::specs::BoardRep::plain_of))]
    pub fn counts(self) -> [u64; 12]
        ensures { result ≡ (plain_of self).counts }
    {
        self.decoder.counts()
    }

    // How many lines were judged since fresh.
    pub fn judged(self) -> u64
        ensures { result ≡ total (plain_of self).counts }
    {
        sum_of(self.decoder.counts())
    }

    // The station that the board reads for.
    #[tactic(auto, unfolding(crate::specs::BoardRep::plain_of))]
    pub fn station(self) -> u16
        ensures { result ≡ (plain_of self).station }
    {
        self.decoder.station()
    }
}
