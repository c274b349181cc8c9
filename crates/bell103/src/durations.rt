// How many samples bits last, without drift: whole samples, and what is left over them, which a sum carries along.
ghost use Rattle.std.specs.Prelude.{◌≡◌, false, ◌≤◌, ◌<◌, length};
ghost use Rattle.bell103.specs.Durations.{longest, most_lengths, exact_of, any_too_long, joined, carried, Measures, Sums};

use crate::BAUD;
use numeric::counts::nearest;
use numeric::limits::any_above;
use refusal::{Refusal, check_rate};

// The longest that is counted, in bits, and the most lengths that are summed.
const LONGEST: u64 = 1048576;

const MOST_LENGTHS: usize = 1000;

// So many whole samples, and three-hundredths of one.
#[derive(Clone, Copy)]
pub struct Duration {
    pub quotient: u64,
    pub remainder: u64,
}

// How many samples some bits last, exactly and to the nearest.
#[derive(Clone, Copy)]
pub struct Measure {
    pub exact: Duration,
    pub rounded: u64,
}

// One product, divided once.
fn exact_of(rate: u32, n: u64) -> Duration
    requires { (rate ≤ 96000) × (n ≤ longest) }
    ensures { result ≡ exact_of rate n }
{
    let product = n * rate as u64;
    Duration {
        quotient: product / BAUD as u64,
        remainder: product % BAUD as u64,
    }
}

// How many samples n bits last at a rate: quotient and remainder of n × rate by 300, and the rounded count beside them; or 1 or 7.
#[tactic(auto, unfolding(crate::specs::Durations::exact_reply), using(crate::proofs::Summing::measures_none))]
pub fn exact(rate: u32, n: u64) -> Result<Measure, Refusal>
    ensures { Measures rate n result }
{
    check_rate(rate)?;
    if LONGEST < n {
        return Err(Refusal::TooManyBits);
    }
    let exact = exact_of(rate, n);
    Ok(Measure {
        exact,
        rounded: nearest(n * rate as u64, BAUD as u64),
    })
}

// One behind the other: the remainders are added, and a whole sample that they make is carried over to the quotient.
fn join(a: Duration, b: Duration) -> Duration
    requires { (a.quotient < 1000000000000) × (a.remainder < 300) × (b.quotient < 1000000000) × (b.remainder < 300) }
    ensures { result ≡ joined a b }
{
    let parts = a.remainder + b.remainder;
    Duration {
        quotient: a.quotient + b.quotient + parts / BAUD as u64,
        remainder: parts % BAUD as u64,
    }
}

// The lengths, one behind the other.
fn add_all(rate: u32, lengths: &[u64]) -> Duration
    requires { (rate ≤ 96000) × (length lengths.now ≤ most_lengths) × (any_too_long lengths.now ≡ false) }
    ensures { result ≡ carried rate lengths.now }
{
    let mut sum = Duration {
        quotient: 0,
        remainder: 0,
    };
    for &n in lengths {
        sum = join(sum, exact_of(rate, n));
    }
    sum
}

// How many samples a list of lengths lasts at a rate, each a number of bits: the sum with its carried remainder; or 1, 42 or 7.
#[tactic(auto, unfolding(crate::specs::Durations::sum_reply), using(crate::proofs::Summing::sums_none))]
pub fn exact_sum(rate: u32, lengths: &[u64]) -> Result<Duration, Refusal>
    ensures { Sums rate lengths.now result }
{
    check_rate(rate)?;
    if MOST_LENGTHS < lengths.len() {
        return Err(Refusal::TooManyLengths);
    }
    if any_above(LONGEST, lengths) {
        return Err(Refusal::TooManyBits);
    }
    Ok(add_all(rate, lengths))
}
