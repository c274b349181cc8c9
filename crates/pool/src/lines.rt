// What a line says of a gauge, and what the text says of three.
ghost use Rattle.std.specs.Prelude.{◌≡◌};
ghost use Rattle.pool.specs.Lines.{with_level, water_and_level, fields_of, line_of, together, one_more, two_more, text_of};

use crate::fields::{cut, level_in, number_of, place_of};
use tide::Reading;

// A reading of that minute, if there is a level.
fn with_level(water: u32, level: Option<i16>) -> Option<Option<Reading>>
    ensures { result ≡ with_level water level }
{
    Some(Some(Reading {
        water,
        level: level?,
    }))
}

// The fields behind the station.
#[tactic(auto, unfolding(crate::specs::Lines::water_and_level))]
fn water_and_level(s: &[u8]) -> Option<Option<Reading>>
    ensures { result ≡ water_and_level s.now }
{
    let (first, rest) = cut(b' ', s);
    with_level(number_of(4294967295, first)?, level_in(rest))
}

// The fields behind `R`.
#[tactic(auto, unfolding(crate::specs::Lines::fields_of))]
fn fields_of(s: &[u8]) -> Option<Option<Reading>>
    ensures { result ≡ fields_of s.now }
{
    let (first, rest) = cut(b' ', s);
    match number_of(65535, first)? {
        0 => None,
        _ => water_and_level(rest),
    }
}

// A gauge's reading, or that it is missing; none where the line says nothing of the kind.
#[tactic(auto, unfolding(crate::specs::Lines::line_of))]
fn line_of(s: &[u8]) -> Option<Option<Reading>>
    ensures { result ≡ line_of s.now }
{
    match s {
        [b'R'] => Some(None),
        [b'R', b' ', fields @ ..] => fields_of(fields),
        _ => None,
    }
}

// Three lines, each of which says something.
fn three(
    first: Option<Option<Reading>>,
    second: Option<Option<Reading>>,
    third: Option<Option<Reading>>,
) -> Option<(Option<Reading>, Option<Reading>, Option<Reading>)>
    ensures { result ≡ together first second third }
{
    Some((first?, second?, third?))
}

// The third line, which ends with the text.
#[tactic(auto, unfolding(crate::specs::Lines::one_more, crate::specs::Fields::before))]
fn one_more(
    first: Option<Option<Reading>>,
    second: Option<Option<Reading>>,
    s: &[u8],
) -> Option<(Option<Reading>, Option<Reading>, Option<Reading>)>
    ensures { result ≡ one_more first second s.now }
{
    let n = place_of(b'\n', s);
    if n + 1 != s.len() {
        return None;
    }
    three(first, second, line_of(&s[..n]))
}

// The second line, and what stands behind it.
#[tactic(auto, unfolding(crate::specs::Lines::two_more))]
fn two_more(
    first: Option<Option<Reading>>,
    s: &[u8],
) -> Option<(Option<Reading>, Option<Reading>, Option<Reading>)>
    ensures { result ≡ two_more first s.now }
{
    let (second, rest) = cut(b'\n', s);
    one_more(first, line_of(second), rest)
}

// The gauges that a text speaks of; none where it is not three lines of the kind.
#[tactic(auto, unfolding(crate::specs::Lines::text_of))]
pub fn gauges_of(s: &[u8]) -> Option<(Option<Reading>, Option<Reading>, Option<Reading>)>
    ensures { result ≡ text_of s.now }
{
    let (first, rest) = cut(b'\n', s);
    two_more(line_of(first), rest)
}
