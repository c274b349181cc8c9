// The words of the command: read FILE, or write FILE RATE STATION ROLE.
ghost use Rattle.std.specs.Prelude.{◌≡◌};
ghost use Rattle.settings.specs.Words.{Says, asked, asked_role};

use bell103::Role;
use console::{number_word, role_word, word_count, word_into};
use std::env::Env;
use store::Settings;

// What is to be done.
#[derive(Drop)]
pub enum Verb {
    Read,
    Write,
}

// Which word is wrong.
#[derive(Drop)]
pub enum Unclear {
    Words,
    Role,
}

impl Unclear {
    // The line that says so.
    pub fn line(self) -> &'static [u8] {
        match self {
            Unclear::Words => {
                b"settings: the words are read FILE, or write FILE RATE STATION ROLE\n"
            }
            Unclear::Role => b"settings: ROLE is originate or answer\n",
        }
    }
}

#[derive(Drop)]
pub enum Request {
    Read,
    Write(Settings),
}

fn verb_of(word: &[u8]) -> Option<Verb>
    ensures { Says word.now result }
{
    if check::same(word, b"read") {
        return Some(Verb::Read);
    }
    if check::same(word, b"write") {
        return Some(Verb::Write);
    }
    None
}

fn ask_role(rate: u16, station: u16, named: Option<Role>) -> Result<Request, Unclear>
    ensures { result ≡ asked_role rate station named }
{
    match named {
        None => Err(Unclear::Role),
        Some(role) => Ok(Request::Write(Settings {
            rate: rate as u32,
            station,
            role,
        })),
    }
}

// What so many words ask for, the program's name among them.
fn ask(
    count: usize,
    verb: Option<Verb>,
    rate: u16,
    station: u16,
    named: Option<Role>,
) -> Result<Request, Unclear>
    ensures { result ≡ asked count verb rate station named }
{
    match (verb, count) {
        (Some(Verb::Read), 3) => Ok(Request::Read),
        (Some(Verb::Write), 6) => ask_role(rate, station, named),
        _ => Err(Unclear::Words),
    }
}

// A rate or a station that is no number up to 65,535 is asked for as 0, which the store refuses with 1 or 2.
pub fn read<E: Env>(env: &E) -> Result<Request, Unclear> {
    let mut word = [0u8; 8];
    let n = word_into(env, 1, &mut word);
    let verb = verb_of(&word[..n]);
    let rate = number_word(env, 3);
    let station = number_word(env, 4);
    let named = role_word(env, 5);
    ask(word_count(env), verb, rate, station, named)
}
