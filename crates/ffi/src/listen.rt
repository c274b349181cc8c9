// The board, exported to C.
ghost use Rattle.std.specs.Prelude.{◌≡◌};
ghost use Rattle.board.specs.Plain.{new_number};
ghost use Rattle.ffi.specs.Listen.{ran, Heard};

use board::listen;
use calls::{number_in, put_board, role_of};
use refusal::rate_ok;

// Why a board of this rate and station is refused: 1, 2, or 0 where it is not.
pub fn morkhetta_board_refusal(rate: u32, station: u16) -> u32
    ensures { result ≡ new_number rate station }
{
    if !rate_ok(rate) {
        return 1;
    }
    if station == 0 {
        return 2;
    }
    0
}

// A fresh board and one write for each length, and what the board shows after them.
pub fn morkhetta_listen(
    rate: u32,
    station: u16,
    role: u32,
    samples: &[f32],
    lengths: &[u32],
    answers: &mut [u64],
    shown: &mut [u64],
) -> usize
    ensures { Heard rate station role samples.now lengths.now answers.old shown.old
        (ran result answers.new shown.new) }
{
    let heard = listen(rate, station, role_of(role), samples, lengths, answers);
    let answer = heard.answer;
    let state = heard.state;
    put_board(number_in(answer), state, shown);
    heard.writes
}
