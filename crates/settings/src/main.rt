// For dealers: the settings of a store that is kept in a file.
//
//   settings read FILE                        prints rate, station, role, and how many lines of unknown version were passed over
//   settings write FILE RATE STATION ROLE     writes one line into the file, in place
//
//   words     what the words of the command ask for     specs/Words.antt
//   page      the file
//   complain  a line on standard error
#![tactic(auto)]

mod complain;
mod page;
mod words;

use std::rt::Files;
use std::str::from_utf8;
use store::Settings;
use words::Request;

fn main(rt: HostRuntime) {
    let mut name = io::buffer();
    let request = words::read(&rt);
    let n = console::word_into(&rt, 2, &mut name);
    match request {
        Ok(Request::Read) => tell(&rt, &name[..n]),
        Ok(Request::Write(settings)) => change(&rt, &name[..n], settings),
        Err(why) => complain::of_words(why),
    }
}

// Prints the settings of the file of this name.
fn tell<R: Files>(files: &R, name: &[u8]) {
    match from_utf8(name) {
        Ok(path) => page::tell(files, path),
        Err(_) => complain::of_name(name),
    }
}

// Writes settings into the file of this name.
fn change<R: Files>(files: &R, name: &[u8], settings: Settings) {
    match from_utf8(name) {
        Ok(path) => page::change(files, path, settings),
        Err(_) => complain::of_name(name),
    }
}
