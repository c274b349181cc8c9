// One clear line on standard error.
use crate::words::Unclear;

pub fn of_words(why: Unclear) {
    io::write_all(2, why.line());
}

pub fn of_text() {
    io::write_all(2, b"send: the text is longer than 65535 bytes\n");
}

pub fn of_output() {
    io::write_all(2, b"send: standard output can't be written\n");
}
