// One clear line on standard error.
use refusal::Refusal;

pub fn of_words() {
    io::write_all(2, b"charge: the word is RATE\n");
}

// The first line that says no number.
pub fn of_line(line: u64) {
    io::write_all(2, b"charge: line ");
    io::print_decimal(2, line);
    io::write_all(2, b" is no number of samples\n");
}

pub fn of_input() {
    io::write_all(2, b"charge: standard input cannot be read\n");
}

pub fn of_output() {
    io::write_all(2, b"charge: standard output cannot be written\n");
}

// The number of a refusal, and why.
pub fn of_refusal(r: Refusal) {
    console::complain_of(b"charge", r);
}
