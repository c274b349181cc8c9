// Whom a demodulator listens for: the bare receiver, whose every bit is the Rust's, or a board, which drops the half byte where the carrier is
// lost, and whose timing error is limited.
#[derive(Clone, Copy)]
pub enum Kind {
    Bare,
    ForBoard,
}
