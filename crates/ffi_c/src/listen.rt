// The board, exported to C.
ghost use Rattle.std.specs.Prelude.{◌≡◌};
ghost use Rattle.board.specs.Plain.{new_number};
ghost use Rattle.ffi.specs.Listen.{ran, Heard};

// Why a board of this rate and station is refused: 1, 2, or 0 where it is not.
#[unsafe(no_mangle)]
pub extern "C" fn morkhetta_board_refusal(rate: u32, station: u16) -> u32
    ensures { result ≡ new_number rate station }
{
    ffi::listen::morkhetta_board_refusal(rate, station)
}

// A fresh board and one write for each length, and what the board shows after them.
#[unsafe(no_mangle)]
pub extern "C" fn morkhetta_listen(
    rate: u32,
    station: u16,
    role: u32,
    samples: &[f32],
    lengths: &[u32],
    answers: &mut [u64],
    shown: &mut [u64],
) -> usize
    ensures { Heard rate station role samples.now lengths.now answers.old shown.old
        (ran result answers.new shown.new) }
{
    ffi::listen::morkhetta_listen(rate, station, role, samples, lengths, answers, shown)
}
