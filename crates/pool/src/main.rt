// Three gauges, one level: three lines on standard input, each `R station W level` as `tideline` prints it, or `R` for a reading that is
// missing. Prints `P W level`, or 46 where all three are missing.
//
//   fields    the fields of a line             specs/Fields.antt
//   lines     what a line and the text say     specs/Lines.antt
#![tactic(auto)]

mod fields;
mod lines;

use refusal::Refusal;
use std::io::Read;
use tide::Reading;

// What failed, in one line on standard error.
fn complain_of_text() {
    io::write_all(
        2,
        b"pool: the input is three lines, each R, or R STATION W LEVEL\n",
    );
}

// What three gauges show together.
fn print_answer(answer: Result<Reading, Refusal>) -> bool {
    match answer {
        Ok(reading) => console::print_pooled(reading),
        Err(why) => { io::print_decimal(1, u32::from(why) as u64) && io::write_all(1, b"\n") }
    }
}

fn tell(a: Option<Reading>, b: Option<Reading>, c: Option<Reading>) {
    if !print_answer(pooling::pool(a, b, c)) {
        io::write_all(2, b"pool: standard output cannot be written\n");
    }
}

// Whether the input, which is standard input, is at its end. One that can't be read is told from one that ends.
fn at_end<R: Read>(input: &mut R) -> bool {
    let mut more = [0u8; 1];
    let Ok(got) = input.read(&mut more) else {
        io::write_all(2, b"pool: standard input cannot be read\n");
        return false;
    };
    if got != 0 {
        complain_of_text();
        return false;
    }
    true
}

// The longest text that says three readings has 78 bytes: a text that fills the array is no such text.
fn main(rt: HostRuntime) {
    let mut text = [0u8; 128];
    let n = io::read_full(0, &mut text);
    if at_end(&mut rt.stdin()) {
        match lines::gauges_of(&text[..n]) {
            Some((a, b, c)) => tell(a, b, c),
            None => complain_of_text(),
        }
    }
}
