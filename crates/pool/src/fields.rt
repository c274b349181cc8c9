// The fields of a line: numbers as the programs print them.
ghost use Rattle.std.specs.Prelude.{◌≡◌, ◌≤◌, length, IfSome};
ghost use Rattle.console.specs.Words.{or_past};
ghost use Rattle.pool.specs.Fields.{place_of, before, behind, number_of, above, below, level_in};

use console::decimal_up_to;

// The place of the first byte c; the length where there is none.
pub fn place_of(c: u8, s: &[u8]) -> usize
    ensures { (result ≡ place_of c s.now) × (result ≤ length s.now) }
{
    for i in 0..s.len() {
        if s[i] == c {
            return i;
        }
    }
    s.len()
}

// What stands before the first byte c, and what stands behind it.
#[tactic(auto, unfolding(crate::specs::Fields::before, crate::specs::Fields::behind))]
pub fn cut(c: u8, s: &[u8]) -> (&[u8], &[u8])
    ensures { (result.0.now ≡ before c s.now) × (result.1.now ≡ behind c s.now) }
{
    let n = place_of(c, s);
    let from = if n < s.len() { n + 1 } else { n };
    (&s[..n], &s[from..])
}

// The number that a field says, where it says one up to the most.
#[tactic(auto, unfolding(crate::specs::Fields::number_of))]
pub fn number_of(most: u32, field: &[u8]) -> Option<u32>
    ensures value { or_past most result ≡ number_of most field.now }
    ensures within { IfSome result (λ n. n ≤ most) }
{
    match field {
        [] | [b'0', _, ..] => None,
        _ => decimal_up_to(most, field),
    }
}

// A level from zero up.
#[tactic(auto, unfolding(crate::specs::Fields::above))]
fn level_above(n: Option<u32>) -> Option<i16>
    requires { IfSome n (λ n. n ≤ 32767) }
    ensures { result ≡ above (or_past 32767 n) }
{
    n.map(|n| n as i16)
}

// A level below zero, of its number without the sign.
#[tactic(auto, unfolding(crate::specs::Fields::below))]
fn level_below(n: Option<u32>) -> Option<i16>
    requires { IfSome n (λ n. n ≤ 32767) }
    ensures { result ≡ below (or_past 32767 n) }
{
    match n? {
        0 => None,
        n => Some(-(n as i16)),
    }
}

// The level that a field says.
#[tactic(auto, unfolding(crate::specs::Fields::level_in))]
pub fn level_in(field: &[u8]) -> Option<i16>
    ensures { result ≡ level_in field.now }
{
    match field {
        [b'-', size @ ..] => level_below(number_of(32767, size)),
        _ => level_above(number_of(32767, field)),
    }
}
