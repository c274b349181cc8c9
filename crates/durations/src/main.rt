// How many samples a day's lines last.
//
//   durations RATE     numbers of bits on standard input, one a line; prints the whole samples of each, the three-hundredths over them and
//                      the rounded count, and at the end S with the whole samples and the three-hundredths of all
//
//   tell       what is printed
//   complain   a line on standard error
#![tactic(auto)]

mod complain;
mod tell;

use console::{InputError, number_word, read_numbers, word_count};

// One length more than are summed, so that a list that is too long is seen to be so.
const ROOM: usize = 1001;

fn main(rt: HostRuntime) {
    if word_count(&rt) != 2 {
        complain::of_words();
        return;
    }
    let rate = number_word(&rt, 1) as u32;
    let mut lengths = [0u64; ROOM];
    match read_numbers(&mut rt.stdin(), &mut lengths) {
        Ok(n) => tell::all(rate, &lengths[..ROOM.min(n as usize)]),
        Err(InputError::WrongLine(line)) => complain::of_line(line),
        Err(InputError::Unreadable) => complain::of_input(),
    }
}
