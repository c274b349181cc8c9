// Where a part of a lent slice ends.
ghost use Rattle.std.specs.Prelude.{◌≡◌, ◌+◌, ◌-◌, ◌<◌, ◌≤◌, min};

// The smaller of two.
pub fn smaller(a: usize, b: usize) -> usize
    ensures { (result ≡ min a b) × (result ≤ a) × (result ≤ b) × (result < a → b ≤ result) }
{
    a.min(b)
}

// The end of the next elements, or of all of them; `from` itself where that is behind all of them.
pub fn part_end(from: usize, elements: u32, all: usize) -> usize
    ensures { (result ≡ from + min elements (all - from)) × (from ≤ result) × (from ≤ all → result ≤ all) }
{
    from + smaller(elements as usize, all.saturating_sub(from))
}
