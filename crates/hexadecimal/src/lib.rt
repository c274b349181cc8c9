// Uppercase hexadecimal: what the characters of a line say. Tide lines are written so, and so will be settings lines and a survey:
// whoever reads such a line reads it here. Each function takes any characters, digits or not.
#![tactic(auto)]

ghost use Rattle.std.specs.Prelude.{◌≡◌, true, ◌%◌, ◌≤◌, ◌<◌, get_or};
ghost use Rattle.hexadecimal.specs.Hex.{hex, all_hex, first_wrong, Says, unhex, total};

// The value of a character, and 16 of one that is no digit.
#[tactic(auto, unfolding(crate::specs::Hex::hex))]
pub fn digit(c: u8) -> u8
    ensures { result ≡ hex c }
{
    match c {
        b'0'..=b'9' => c - b'0',
        b'A'..=b'F' => c - b'A' + 10,
        _ => 16,
    }
}

// The digit test. The one loop returns at the first wrong character, and reads none behind it.
#[tactic(auto, unfolding(crate::specs::Hex::all_hex))]
pub fn test_digits(s: &[u8]) -> Option<usize>
    ensures { (result ≡ first_wrong s.now) × Says s.now result }
{
    for i in 0..s.len() {
        if digit(s[i]) >= 16 {
            return Some(i);
        }
    }
    None
}

// Byte i of those that the characters say, and 0 where there is none.
pub fn byte(s: &[u8], i: usize) -> u32
    ensures { (result ≡ get_or (unhex s.now) i 0) × (result ≤ 272) × (all_hex s.now ≡ true → result < 256) }
{
    let n = s.len() / 2;
    if n <= i {
        return 0;
    }
    let a = digit(s[2 * i]);
    let b = digit(s[2 * i + 1]);
    16 * (a as u32) + (b as u32)
}

// The sum of the bytes that the characters say, modulo 256.
pub fn sum(s: &[u8]) -> u32
    ensures { result ≡ total (unhex s.now) % 256 }
{
    let n = s.len() / 2;
    let mut t = 0;
    for i in 0..n {
        t = (t + byte(s, i)) % 256;
    }
    t
}
