// A settings line, without the 0A that ends it: what it is judged to be, and the line that a writer makes.
ghost use Rattle.std.specs.Prelude.{◌≡◌, true, ◌+◌, ◌/◌, ◌%◌, ◌<◌};
ghost use Rattle.hexadecimal.specs.Hex as hex;
ghost use Rattle.hexadecimal.specs.Hex.{all_hex, unhex, total, check_of};
ghost use Rattle.store.specs.Line.{word_at, with_role, of_version1, judged, role_byte, body_of, line_of};

use bell103::Role;
use hexadecimal::{byte, sum, test_digits};
use refusal::rate_ok;

// What a dealer sets before casting.
#[derive(Clone, Copy)]
pub struct Settings {
    pub rate: u32,
    pub station: u16,
    pub role: Role,
}

// Why a line says no settings.
#[derive(Clone, Copy)]
pub enum Flaw {
    UnknownVersion,
    Damaged,
}

// Two bytes of a line of digits, high byte first.
#[tactic(auto, unfolding(crate::specs::Line::word_at))]
fn word(s: &[u8], i: usize) -> u32
    requires { (all_hex s.now ≡ true) × (i < 1000) }
    ensures { (result ≡ word_at (unhex s.now) i) × (result < 65536) }
{
    256 * byte(s, i) + byte(s, i + 1)
}

// A line of version 1, by its role byte. (`Role` is another crate's, so there is no `TryFrom` of it here.)
#[tactic(auto, unfolding(crate::specs::Line::with_role))]
fn with_role(rate: u32, station: u16, role: u32) -> Result<Settings, Flaw>
    ensures { result ≡ with_role rate station role }
{
    let role = match role {
        0 => Role::Originate,
        1 => Role::Answer,
        _ => return Err(Flaw::Damaged),
    };
    Ok(Settings {
        rate,
        station,
        role,
    })
}

// A line of digits with its sum, of version 1.
fn judge_version_1(s: &[u8]) -> Result<Settings, Flaw>
    requires { all_hex s.now ≡ true }
    ensures { result ≡ of_version1 (unhex s.now) }
{
    let n = s.len() / 2;
    if n != 7 {
        return Err(Flaw::Damaged);
    }
    let rate = word(s, 1);
    if !rate_ok(rate) {
        return Err(Flaw::Damaged);
    }
    let station = word(s, 3);
    if station == 0 {
        return Err(Flaw::Damaged);
    }
    with_role(rate, station as u16, byte(s, 5))
}

// Any line.
#[tactic(auto, unfolding(crate::specs::Line::judged, crate::specs::Line::whole))]
pub(crate) fn judge(s: &[u8]) -> Result<Settings, Flaw>
    ensures { result ≡ judged s.now }
{
    let n = s.len();
    if n < 2 || n % 2 == 1 {
        return Err(Flaw::Damaged);
    }
    let None = test_digits(s) else {
        return Err(Flaw::Damaged);
    };
    if sum(s) != 0 {
        return Err(Flaw::Damaged);
    }
    if byte(s, 0) != 1 {
        return Err(Flaw::UnknownVersion);
    }
    judge_version_1(s)
}

// The character of a digit.
#[tactic(auto, unfolding(hexadecimal::specs::Hex::digit))]
fn char_of(d: u8) -> u8
    requires { d < 16 }
    ensures { result ≡ hex.digit d }
{
    if d < 10 {
        return d + 48;
    }
    d + 55
}

// The characters of a byte's two digits.
fn high(b: u8) -> u8
    ensures { result ≡ hex.digit (b / 16) }
{
    char_of(b / 16)
}

fn low(b: u8) -> u8
    ensures { result ≡ hex.digit (b % 16) }
{
    char_of(b % 16)
}

fn role_byte(role: Role) -> u8
    ensures { (result ≡ role_byte role) × (result < 2) }
{
    match role {
        Role::Originate => 0,
        Role::Answer => 1,
    }
}

// The byte that makes the sum divisible by 256.
#[tactic(auto, unfolding(hexadecimal::specs::Hex::check_of, hexadecimal::specs::Hex::total))]
fn check_of(rate: u32, station: u16, role: Role) -> u8
    requires { rate < 65536 }
    ensures { result ≡ check_of (total (body_of rate station role)) }
{
    let s = station as u32;
    let o = role_byte(role);
    let t = 1 + rate / 256 + rate % 256 + s / 256 + s % 256 + o as u32;
    ((256 - t % 256) % 256) as u8
}

// The line that says these settings, with the 0A that ends it.
pub(crate) fn line_of(rate: u32, station: u16, role: Role) -> [u8; 15]
    requires { rate < 65536 }
    ensures { result ≡ line_of rate station role }
{
    let r = (rate / 256) as u8;
    let q = (rate % 256) as u8;
    let s = (station / 256) as u8;
    let p = (station % 256) as u8;
    let o = role_byte(role);
    let k = check_of(rate, station, role);
    [
        b'0',
        b'1',
        high(r),
        low(r),
        high(q),
        low(q),
        high(s),
        low(s),
        high(p),
        low(p),
        high(o),
        low(o),
        high(k),
        low(k),
        b'\n',
    ]
}
