// A list of writes from a fresh board on.
ghost use Rattle.std.specs.Prelude.{◌≡◌, [], ◌∷◌, ◌+◌, ◌≤◌, length};
ghost use Rattle.board.specs.BoardRep.{answer_of};
ghost use Rattle.board.specs.Runs.{width, numbers_of, Within, Stepped, RunFrom, Listens};

use crate::board::{Board, Summary};
use crate::numbers::{Numbers, WIDTH, tell};
use bell103::Role;
use numeric::ends::part_end;
use refusal::Refusal;

// What `listen` answers: `new`'s answer, how many writes it ran, and the board after them.
#[derive(Clone, Copy)]
pub struct Listened {
    pub state: Board,
    pub answer: Result<(), Refusal>,
    pub writes: usize,
}

fn numbers_of(answer: Result<Summary, Refusal>) -> Numbers
    ensures { result.number ∷ result.bytes ∷ result.lines ∷ result.last ∷ result.bad_stops ∷ [] ≡ numbers_of (answer_of answer) }
{
    match answer {
        Err(why) => Numbers {
            number: u32::from(why),
            bytes: 0,
            lines: 0,
            last: 0,
            bad_stops: 0,
        },
        Ok(x) => Numbers {
            number: 0,
            bytes: x.bytes,
            lines: x.lines,
            last: x.last,
            bad_stops: x.bad_stops,
        },
    }
}

// Where a list of writes stands: the board, and how many of the samples are behind it.
#[derive(Clone, Copy)]
struct Place {
    board: Board,
    read: usize,
}

// One write, and its numbers at `at` of the answers.
fn one_write(p: Place, samples: &[f32], n: u32, answers: &mut [u64], at: usize) -> Place
    requires { Within p samples.now × (at + width ≤ length answers.old) }
    ensures { Stepped p result n samples.now at answers.old answers.new }
{
    let end = part_end(p.read, n, samples.len());
    let w = p.board.write(&samples[p.read..end]);
    tell(answers, at, numbers_of(w.answer));
    Place {
        board: w.state,
        read: end,
    }
}

// A write for each length.
fn all_writes(board: Board, samples: &[f32], lengths: &[u32], answers: &mut [u64]) -> Listened
    ensures { RunFrom board samples.now lengths.now answers.old result answers.new }
{
    let writes = lengths.len().min(answers.len() / WIDTH);
    let mut place = Place { board, read: 0 };
    for i in 0..writes {
        place = one_write(place, samples, lengths[i], answers, WIDTH * i);
    }
    Listened {
        answer: Ok(()),
        writes,
        state: place.board,
    }
}

// The third term: a fresh board, and one write for each length. A write takes the next samples, or what is left of them, and puts its
// numbers into the answers; as many are run as have room. Refused, it leaves the answers as they were.
pub fn listen(
    rate: u32,
    station: u16,
    role: Role,
    samples: &[f32],
    lengths: &[u32],
    answers: &mut [u64],
) -> Listened
    ensures { Listens rate station role samples.now lengths.now answers.old result answers.new }
{
    let made = Board::new(rate, station, role);
    let answer = made.answer;
    let state = made.state;
    match answer {
        Err(_) => Listened {
            answer,
            writes: 0,
            state,
        },
        Ok(()) => all_writes(state, samples, lengths, answers),
    }
}
