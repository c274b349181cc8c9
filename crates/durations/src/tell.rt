// What is printed: each length's samples, and those of all.
use crate::complain;
use bell103::{Duration, Measure, exact, exact_sum};
use console::print_field;

// Quotient, remainder and the rounded count.
fn print_measure(m: Measure) -> bool {
    io::print_decimal(1, m.exact.quotient)
        && print_field(m.exact.remainder)
        && print_field(m.rounded)
        && io::write_all(1, b"\n")
}

// `S`, quotient and remainder.
fn print_sum(d: Duration) -> bool {
    io::write_all(1, b"S")
        && print_field(d.quotient)
        && print_field(d.remainder)
        && io::write_all(1, b"\n")
}

// One length. It is in a list that was summed, so that it is not refused.
fn print_length(rate: u32, n: u64) -> bool {
    let answer = exact(rate, n);
    match answer {
        Ok(m) => print_measure(m),
        Err(_) => false,
    }
}

// Each length, while all is written.
fn print_lengths(rate: u32, lengths: &[u64]) -> bool {
    lengths.iter().all(|&n| print_length(rate, n))
}

fn print_all(rate: u32, lengths: &[u64], sum: Duration) -> bool {
    print_lengths(rate, lengths) && print_sum(sum)
}

// A list that is refused has its number alone.
pub fn all(rate: u32, lengths: &[u64]) {
    let answer = exact_sum(rate, lengths);
    match answer {
        Ok(sum) => {
            if !print_all(rate, lengths, sum) {
                complain::of_output();
            }
        }
        Err(r) => complain::of_refusal(r),
    }
}
