// Words, numbers and answers on standard output.
use demodulation::Carrier;
use refusal::Refusal;

pub fn text(words: &[u8]) {
    io::write_all(1, words);
}

pub fn number(n: u64) {
    io::print_decimal(1, n);
}

pub fn end_line() {
    text(b"\n");
}

// 1 or 0.
pub fn flag(up: bool) {
    text(if up { b"1" } else { b"0" });
}

// 0, or the number of the refusal.
pub fn acceptance(a: Result<(), Refusal>) {
    match a {
        Ok(()) => {
            text(b"0");
        }
        Err(r) => {
            number(u32::from(r) as u64);
        }
    }
}

// The number of the refusal, 0 where there is none.
pub fn refusal(c: Result<usize, Refusal>) {
    match c {
        Ok(_) => {
            text(b"0");
        }
        Err(r) => {
            number(u32::from(r) as u64);
        }
    }
}

// The count, or the number of the refusal.
pub fn counted(c: Result<usize, Refusal>) {
    match c {
        Ok(n) => {
            number(n as u64);
        }
        Err(r) => {
            text(b"refused ");
            number(u32::from(r) as u64);
        }
    }
}

// The event, and whether there was one.
pub fn event(e: Option<Carrier>) -> bool {
    match e {
        None => false,
        Some(Carrier::Up) => {
            text(b" up");
            true
        }
        Some(Carrier::Down) => {
            text(b" down");
            true
        }
    }
}

// The pattern of an f32: eight hexadecimal digits.
pub fn pattern(bits: u64) {
    io::print_hex(1, bits, 8);
}

// A blank and two hexadecimal digits.
fn byte(b: u8) {
    text(b" ");
    io::print_hex(1, b as u64, 2);
}

// The first n bytes.
pub fn bytes(list: &[u8], n: usize) {
    for &b in &list[..n.min(list.len())] {
        byte(b);
    }
}
