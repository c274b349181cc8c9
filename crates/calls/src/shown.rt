// What a board shows, as numbers in a lent slice.
ghost use Rattle.std.specs.Prelude.{◌≡◌, [], ◌∷◌};
ghost use Rattle.tide.specs.JudgeRep.{shown_of};
ghost use Rattle.board.specs.BoardRep.{plain_of};
ghost use Rattle.calls.specs.Shown.{shown_numbers, shown_in};

use crate::answers::put_row;
use board::Board;
use tide::Reading;

// What a board shows: whether it shows a reading, 1 or 0; its water minute; the sixteen bits of its level.
#[derive(Clone, Copy)]
struct ShownNumbers {
    shown: u64,
    water: u64,
    level: u64,
}

fn shown_numbers(r: Option<Reading>) -> ShownNumbers
    ensures { result.shown ∷ result.water ∷ result.level ∷ [] ≡ shown_numbers (shown_of r) }
{
    match r {
        None => ShownNumbers {
            shown: 0,
            water: 0,
            level: 0,
        },
        Some(reading) => ShownNumbers {
            shown: 1,
            water: reading.water as u64,
            level: reading.level.cast_unsigned() as u64,
        },
    }
}

// Writes all fifteen, if `new` refused nothing and there is room.
pub fn put_board(refusal: u32, board: Board, out: &mut [u64])
    ensures { out.new ≡ shown_in refusal (plain_of board) out.old }
{
    if refusal != 0 {
        return;
    }
    if out.len() < 15 {
        return;
    }
    let n = shown_numbers(board.reading());
    put_row(out, 0, &[n.shown, n.water, n.level]);
    put_row(out, 3, &board.counts());
}
