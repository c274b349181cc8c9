// The words of a command: numbers and roles.
ghost use Rattle.std.specs.Prelude.{◌≡◌, ◌≤◌, length, IfSome};
ghost use Rattle.console.specs.Words.{with_digit, up_to_most, or_past, decimal_of, Says};

use bell103::Role;
use std::env::{Env, FillError};

// A number with one digit more; none where that is no digit, or where the number then is more than the most.
#[tactic(auto, unfolding(crate::specs::Words::with_digit))]
fn with_digit(most: u32, value: u32, c: u8) -> Option<u32>
    requires { value ≤ most }
    ensures value { or_past most result ≡ with_digit most value c }
    ensures within { IfSome result (λ n. n ≤ most) }
{
    if c < b'0' || b'9' < c {
        return None;
    }
    let next = value as u64 * 10 + (c - b'0') as u64;
    if (most as u64) < next {
        None
    } else {
        Some(next as u32)
    }
}

// The number that a word says, where it says one up to the most.
pub fn decimal_up_to(most: u32, word: &[u8]) -> Option<u32>
    ensures value { or_past most result ≡ up_to_most most word.now }
    ensures within { IfSome result (λ n. n ≤ most) }
{
    let mut value = 0;
    for &c in word {
        value = with_digit(most, value, c)?;
    }
    Some(value)
}

// The number that a word of a command says; 0, which no rate and no station is, where it says none up to 65,535.
#[tactic(auto, unfolding(crate::specs::Words::decimal_of))]
fn decimal(word: &[u8]) -> u16
    ensures { result ≡ decimal_of word.now }
{
    decimal_up_to(65535, word).unwrap_or(0) as u16
}

// What a word says of the role.
fn role_of(word: &[u8]) -> Option<Role>
    ensures { Says word.now result }
{
    if check::same(word, b"originate") {
        return Some(Role::Originate);
    }
    if check::same(word, b"answer") {
        return Some(Role::Answer);
    }
    None
}

// Puts the i-th word of the command at the start of the buffer, and says how many bytes it has: none where there is no such word, or where the
// buffer is too short for it.
pub fn word_into<E: Env>(env: &E, i: usize, buf: &mut [u8]) -> usize
    ensures { result ≤ length buf.new }
{
    env.arg(i, buf).unwrap_or(0)
}

// Whether the command has an i-th word.
fn has_word<E: Env>(env: &E, i: usize) -> bool {
    let mut buf = [0u8; 1];
    !matches!(env.arg(i, &mut buf), Err(FillError::NotPresent))
}

// How many words the command has, the program's name among them.
pub fn word_count<E: Env>(env: &E) -> usize {
    for n in 0..usize::MAX {
        if !has_word(env, n) {
            return n;
        }
    }
    usize::MAX
}

// The number that the i-th word of the command says; 0 where it says none up to 65,535.
pub fn number_word<E: Env>(env: &E, i: usize) -> u16 {
    let mut buf = [0u8; 64];
    let n = word_into(env, i, &mut buf);
    decimal(&buf[..n])
}

// What the i-th word of the command says of the role.
pub fn role_word<E: Env>(env: &E, i: usize) -> Option<Role> {
    let mut buf = [0u8; 64];
    let n = word_into(env, i, &mut buf);
    role_of(&buf[..n])
}
