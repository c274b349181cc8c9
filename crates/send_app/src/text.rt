// The text on standard input, sent from the source that is asked for.
ghost use Rattle.std.specs.Prelude.{◌≤◌, length};

use crate::call::send_call;
use crate::complain;
use crate::gauge::send_table;
use crate::words::Source;
use bell103::Role;

// Sends a text of 65,535 bytes at the most; whether all was written.
fn send_from(role: Role, source: Source, text: &[u8]) -> bool
    requires { length text.now ≤ 65536 }
{
    match source {
        Source::Sine { rate, kind } => send_call(role, rate, kind, text),
        Source::Table => send_table(role, text),
    }
}

// Sends all of standard input.
pub fn send_text(role: Role, source: Source) {
    let mut text = io::large_buffer();
    let n = io::read_full(0, &mut text);
    if n == text.len() {
        complain::of_text();
        return;
    }
    if !send_from(role, source, &text[..n]) {
        complain::of_output();
    }
}
