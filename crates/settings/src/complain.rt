// One clear line on standard error.
use crate::words::Unclear;
use refusal::Refusal;
use std::fmt::InlineText;
use std::io::Error;

pub fn of_words(why: Unclear) {
    io::write_all(2, why.line());
}

// What the system says of an error: the text without the error's number.
fn reason(text: &str) -> &str {
    match text.split_once(" (os error ") {
        Some((said, _)) => said,
        None => text,
    }
}

// A file that cannot be read or written, and why.
pub fn of_file(path: &str, e: Error) {
    let text = InlineText::<128>::of(e);
    io::write_all(2, path.as_bytes());
    io::write_all(2, b": ");
    io::write_all(2, reason(text.as_str()).as_bytes());
    io::write_all(2, b"\n");
}

// A file's name that is no text.
pub fn of_name(name: &[u8]) {
    io::write_all(2, name);
    io::write_all(2, b": the name is not UTF-8\n");
}

// The number of a refusal, and why.
pub fn of_refusal(r: Refusal) {
    console::complain_of(b"settings", r);
}
