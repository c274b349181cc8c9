// Refusals: their numbers, and the check of rates. Each crate of the board answers with them.
#![tactic(auto, unfolding(crate::specs::Refusals::rate_refused, crate::specs::Refusals::rates_refused))]

ghost use Rattle.std.specs.Prelude.{◌≡◌, not, true, false, OnOk, IfErr};
ghost use Rattle.refusal.specs.Refusals.{number_of, rate_refused, rates_refused};

// Internal rate, in samples a second, and the lowest device rate. Device rates are resampled to it.
pub const DSP_RATE: u32 = 8000;

// The highest device rate.
pub const HIGHEST_RATE: u32 = 48000;

// Why a call is refused.
#[derive(Clone, Copy)]
pub enum Refusal {
    Rate,
    Station,
    TooManySamples,
    BadSample,
    OutputTooShort,
    Amplitude,
    TooManyBits,
    OutOfSamples,
    BytesWait,
    BitsWait,
    NoSettings,
    StoreFull,
    TooManyLengths,
    WildSample,
    TooManyCalls,
    CallTooLong,
    NoReadings,
}

// The number that a refused call returns.
impl From<Refusal> for u32 {
    ghost from_gives = { λ why n. n ≡ number_of why };

    fn from(why: Refusal) -> u32 {
        match why {
            Refusal::Rate => 1,
            Refusal::Station => 2,
            Refusal::TooManySamples => 3,
            Refusal::BadSample => 4,
            Refusal::OutputTooShort => 5,
            Refusal::Amplitude => 6,
            Refusal::TooManyBits => 7,
            Refusal::OutOfSamples => 31,
            Refusal::BytesWait => 32,
            Refusal::BitsWait => 33,
            Refusal::NoSettings => 40,
            Refusal::StoreFull => 41,
            Refusal::TooManyLengths => 42,
            Refusal::WildSample => 43,
            Refusal::TooManyCalls => 44,
            Refusal::CallTooLong => 45,
            Refusal::NoReadings => 46,
        }
    }
}

// What a call answers, and the state after it: refused, the state as it was, or that which a refused `new` gives.
#[derive(Clone, Copy)]
pub struct Answered<S, T> {
    pub state: S,
    pub answer: Result<T, Refusal>,
}

// The state after a call that is never refused, and how many the call gave.
#[derive(Clone, Copy)]
pub struct Counting<S> {
    pub state: S,
    pub count: usize,
}

// Whether this is an admitted device rate.
pub fn rate_ok(rate: u32) -> bool
    ensures { not result ≡ rate_refused rate }
{
    DSP_RATE <= rate && rate <= HIGHEST_RATE
}

// Whether the resampler converts between these two rates.
pub fn rates_ok(src: u32, dst: u32) -> bool
    ensures { not result ≡ rates_refused src dst }
{
    rate_ok(src) && rate_ok(dst) && (src == DSP_RATE || dst == DSP_RATE)
}

// The same of one rate as a call's first check: refusal 1 where it is not.
pub fn check_rate(rate: u32) -> Result<(), Refusal>
    ensures admitted { OnOk result (rate_refused rate ≡ false) }
    ensures refused { IfErr result (λ why. (why ≡ Refusal.Rate) × (rate_refused rate ≡ true)) }
{
    if rate_ok(rate) {
        Ok(())
    } else {
        Err(Refusal::Rate)
    }
}
