// Words, numbers and answers on standard output.
use refusal::Refusal;

pub fn text(words: &[u8]) {
    io::write_all(1, words);
}

pub fn number(n: u64) {
    io::print_decimal(1, n);
}

// Two hexadecimal digits.
pub fn byte(b: u8) {
    io::print_hex(1, b as u64, 2);
}

pub fn end_line() {
    text(b"\n");
}

// Two rates, as `48000 to 8000`.
pub fn rates(src: u32, dst: u32) {
    number(src as u64);
    text(b" to ");
    number(dst as u64);
}

fn refusal(r: Refusal) {
    text(b"refused ");
    number(u32::from(r) as u64);
}

pub fn acceptance(a: Result<(), Refusal>) {
    match a {
        Ok(()) => {
            text(b"accepted");
        }
        Err(r) => {
            refusal(r);
        }
    }
}

pub fn count(c: Result<usize, Refusal>) {
    match c {
        Ok(n) => {
            number(n as u64);
        }
        Err(r) => {
            refusal(r);
        }
    }
}
