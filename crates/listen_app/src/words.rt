// The words of the command: STATION ROLE, RATE where the input has no header, and s16 where its samples are no floats.
ghost use Rattle.std.specs.Prelude.{◌≡◌, true};
ghost use Rattle.listen_app.specs.Words.{asked, asked_rate, asked_format, s16};

use bell103::Role;
use console::{number_word, role_word, word_count, word_into};
use refusal::rate_ok;
use std::env::Env;

// Which word is wrong.
#[derive(Clone, Copy)]
pub enum Unclear {
    Count,
    Station,
    Role,
    Rate,
    Format,
}

impl Unclear {
    // The line that says so.
    pub fn line(self) -> &'static [u8] {
        match self {
            Unclear::Count => {
                b"listen: the words are STATION ROLE, RATE where the input is raw, and s16 where it is 16-bit\n"
            }
            Unclear::Station => b"listen: STATION is a number from 1 to 65535\n",
            Unclear::Role => b"listen: ROLE is originate or answer\n",
            Unclear::Rate => b"listen: RATE is a number from 8000 to 48000\n",
            Unclear::Format => b"listen: the word behind RATE is s16\n",
        }
    }
}

#[derive(Clone, Copy)]
pub enum Request {
    Recording { station: u16, role: Role },
    Floats { station: u16, role: Role, rate: u32 },
    Pcm { station: u16, role: Role, rate: u32 },
}

// What so many words ask for, the program's name among them; `is_pcm` says whether the last of five is s16.
#[tactic(auto, unfolding(crate::specs::Words::asked))]
fn ask(
    count: usize,
    station: u16,
    named: Option<Role>,
    rate: u16,
    is_pcm: bool,
) -> Result<Request, Unclear>
    ensures { result ≡ asked count station named rate is_pcm }
{
    if count < 3 || 5 < count {
        return Err(Unclear::Count);
    }
    if station == 0 {
        return Err(Unclear::Station);
    }
    match named {
        None => Err(Unclear::Role),
        Some(role) => ask_rate(count, station, role, rate, is_pcm),
    }
}

#[tactic(auto, unfolding(crate::specs::Words::asked_rate))]
fn ask_rate(
    count: usize,
    station: u16,
    role: Role,
    rate: u16,
    is_pcm: bool,
) -> Result<Request, Unclear>
    ensures { result ≡ asked_rate count station role rate is_pcm }
{
    if count == 3 {
        return Ok(Request::Recording { station, role });
    }
    if !rate_ok(rate as u32) {
        return Err(Unclear::Rate);
    }
    ask_format(count, station, role, rate as u32, is_pcm)
}

#[tactic(auto, unfolding(crate::specs::Words::asked_format))]
fn ask_format(
    count: usize,
    station: u16,
    role: Role,
    rate: u32,
    is_pcm: bool,
) -> Result<Request, Unclear>
    ensures { result ≡ asked_format count station role rate is_pcm }
{
    if count == 4 {
        return Ok(Request::Floats {
            station,
            role,
            rate,
        });
    }
    if is_pcm {
        return Ok(Request::Pcm {
            station,
            role,
            rate,
        });
    }
    Err(Unclear::Format)
}

fn says_s16(word: &[u8]) -> bool
    ensures { (result ≡ true → word.now ≡ s16) × (word.now ≡ s16 → result ≡ true) }
{
    check::same(word, b"s16")
}

// Whether the i-th word of the command is s16.
fn is_s16<E: Env>(env: &E, i: usize) -> bool {
    let mut buf = [0u8; 64];
    let n = word_into(env, i, &mut buf);
    says_s16(&buf[..n])
}

pub fn read<E: Env>(env: &E) -> Result<Request, Unclear> {
    let station = number_word(env, 1);
    let named = role_word(env, 2);
    let rate = number_word(env, 3);
    let is_pcm = is_s16(env, 4);
    ask(word_count(env), station, named, rate, is_pcm)
}
