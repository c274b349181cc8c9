// The words of the command: ROLE RATE, with s16 for samples of 16 bits, or with table for those of the sender that has no floats.
ghost use Rattle.std.specs.Prelude.{◌≡◌};
ghost use Rattle.send_app.specs.Words.{Says, counted, third_of, asked, asked_rate, asked_table};

use bell103::Role;
use console::{number_word, role_word, word_count, word_into};
use refusal::rate_ok;
use std::env::Env;

// How the samples are written: floats of 32 bits, or PCM of 16.
#[derive(Clone, Copy)]
pub enum Kind {
    Float,
    Pcm16,
}

// Where the samples come from: a sine in floats, at a rate, written so; or the table, at 8,000.
#[derive(Clone, Copy)]
pub enum Source {
    Sine { rate: u16, kind: Kind },
    Table,
}

// What the third word says of it.
#[derive(Clone, Copy)]
pub enum Third {
    Kind(Kind),
    Table,
}

// Which word is wrong.
#[derive(Clone, Copy)]
pub enum Unclear {
    Count,
    Role,
    Rate,
    Kind,
    TableRate,
}

impl Unclear {
    // The line that says so.
    pub fn line(self) -> &'static [u8] {
        match self {
            Unclear::Count => b"send: the words are ROLE RATE, ROLE RATE s16, or ROLE 8000 table\n",
            Unclear::Role => b"send: ROLE is originate or answer\n",
            Unclear::Rate => b"send: RATE is a number from 8000 to 48000\n",
            Unclear::Kind => b"send: the third word is s16 or table, or there is none\n",
            Unclear::TableRate => b"send: RATE is 8000 where the third word is table\n",
        }
    }
}

// A call that is asked for.
#[derive(Clone, Copy)]
pub struct Call {
    pub role: Role,
    pub source: Source,
}

// The table's samples are those of 8,000 a second.
#[tactic(auto, unfolding(crate::specs::Words::asked_table))]
fn ask_table(role: Role, rate: u16) -> Result<Call, Unclear>
    ensures { result ≡ asked_table role rate }
{
    if rate == 8000 {
        return Ok(Call {
            role,
            source: Source::Table,
        });
    }
    Err(Unclear::TableRate)
}

#[tactic(auto, unfolding(crate::specs::Words::asked_rate))]
fn ask_rate(role: Role, rate: u16, third: Option<Third>) -> Result<Call, Unclear>
    ensures { result ≡ asked_rate role rate third }
{
    if !rate_ok(rate as u32) {
        return Err(Unclear::Rate);
    }
    match third.ok_or(Unclear::Kind)? {
        Third::Kind(kind) => Ok(Call {
            role,
            source: Source::Sine { rate, kind },
        }),
        Third::Table => ask_table(role, rate),
    }
}

// With the program's name two words or three.
#[tactic(auto, unfolding(crate::specs::Words::counted))]
fn count_ok(count: usize) -> bool
    ensures { result ≡ counted count }
{
    count == 3 || count == 4
}

// Floats where there is no third word.
#[tactic(auto, unfolding(crate::specs::Words::third_of))]
fn third_of(count: usize, said: Option<Third>) -> Option<Third>
    ensures { result ≡ third_of count said }
{
    if count == 3 {
        Some(Third::Kind(Kind::Float))
    } else {
        said
    }
}

// What so many words ask for, the program's name among them.
#[tactic(auto, unfolding(crate::specs::Words::asked))]
fn ask(count: usize, named: Option<Role>, rate: u16, said: Option<Third>) -> Result<Call, Unclear>
    ensures { result ≡ asked count named rate said }
{
    if !count_ok(count) {
        return Err(Unclear::Count);
    }
    let third = third_of(count, said);
    match named {
        None => Err(Unclear::Role),
        Some(role) => ask_rate(role, rate, third),
    }
}

// What a third word says.
fn said_by(word: &[u8]) -> Option<Third>
    ensures { Says word.now result }
{
    if check::same(word, b"s16") {
        return Some(Third::Kind(Kind::Pcm16));
    }
    if check::same(word, b"table") {
        return Some(Third::Table);
    }
    None
}

fn third_word<E: Env>(env: &E, i: usize) -> Option<Third> {
    let mut buf = [0u8; 64];
    let n = word_into(env, i, &mut buf);
    said_by(&buf[..n])
}

pub fn read<E: Env>(env: &E) -> Result<Call, Unclear> {
    let named = role_word(env, 1);
    let rate = number_word(env, 2);
    let said = third_word(env, 3);
    ask(word_count(env), named, rate, said)
}
