// For the office: what the calls of a month cost.
//
//   charge RATE     a number of samples a line on standard input; prints `C thousandths` for each call, then `M thousandths pence part`
//
//   bill      a month's calls, charged and printed
//   complain  a line on standard error
#![tactic(auto)]

mod bill;
mod complain;

use console::{InputError, number_word, read_numbers, word_count};

// A RATE that is no number up to 65,535 is asked for as 0, which is refused with 1. Memory holds one number more than a month may have
// calls, so that a longer list is refused with 44.
fn main(rt: HostRuntime) {
    if word_count(&rt) != 2 {
        complain::of_words();
        return;
    }
    let rate = number_word(&rt, 1);
    let mut calls = [0u64; 5001];
    match read_numbers(&mut rt.stdin(), &mut calls) {
        Ok(n) => bill::tell(rate as u32, &calls, n),
        Err(InputError::WrongLine(line)) => complain::of_line(line),
        Err(InputError::Unreadable) => complain::of_input(),
    }
}
