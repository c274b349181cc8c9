// One clear line on standard error.
use refusal::Refusal;

pub fn of_words() {
    io::write_all(2, b"durations: the word is RATE\n");
}

// The line of this number says no number.
pub fn of_line(line: u64) {
    io::write_all(2, b"durations: line ");
    io::print_decimal(2, line);
    io::write_all(2, b" is not a number of bits, ended by a line feed\n");
}

pub fn of_input() {
    io::write_all(2, b"durations: standard input cannot be read\n");
}

pub fn of_output() {
    io::write_all(2, b"durations: standard output cannot be written\n");
}

// The number of a refusal, and why.
pub fn of_refusal(r: Refusal) {
    console::complain_of(b"durations", r);
}
