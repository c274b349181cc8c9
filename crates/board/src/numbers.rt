// How a write's answer goes into a lent slice.
ghost use Rattle.std.specs.Prelude.{◌≡◌, [], ◌∷◌, ◌+◌, ◌≤◌, length};
ghost use Rattle.board.specs.Runs.{width, put_at};

// How many numbers an answer has.
pub const WIDTH: usize = 5;

#[derive(Clone, Copy)]
pub struct Numbers {
    pub number: u32,
    pub bytes: u64,
    pub lines: u64,
    pub last: u8,
    pub bad_stops: u64,
}

// Writes them at `at`.
pub(crate) fn tell(answers: &mut [u64], at: usize, t: Numbers)
    requires { at + width ≤ length answers.old }
    ensures { answers.new ≡ put_at at (t.number ∷ t.bytes ∷ t.lines ∷ t.last ∷ t.bad_stops ∷ []) answers.old }
{
    let row = [
        t.number as u64,
        t.bytes,
        t.lines,
        t.last as u64,
        t.bad_stops,
    ];
    answers[at..at + WIDTH].copy_from_slice(&row);
}
