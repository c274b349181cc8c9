// Bell 103: roles, symbol rate and tones; how many samples bits last.
#![tactic(auto)]

ghost use Rattle.std.specs.Prelude.{◌≡◌};
ghost use Rattle.bell103.specs.Roles.{other_role, tones_of, samples_per_symbol};

use refusal::DSP_RATE;

mod durations;

pub use durations::{Duration, Measure, exact, exact_sum};

// Bell 103 symbol rate, in symbols a second.
pub const BAUD: u32 = 300;

// Samples per symbol. Fractional on purpose: 26 or 27 would drift by a symbol every forty characters or so.
pub fn samples_per_symbol() -> f64
    ensures { result ≡ samples_per_symbol }
{
    DSP_RATE as f64 / BAUD as f64
}

// Which end of the call this is: it sends on `tones(role)`, and listens on `tones(role.listen())`.
#[derive(Clone, Copy)]
pub enum Role {
    // The end that dials.
    Originate,
    // The end that picks up.
    Answer,
}

impl Role {
    // The other role: an end listens on the tones that the other end sends.
    pub fn listen(self) -> Role
        ensures { result ≡ other_role self }
    {
        match self {
            Role::Originate => Role::Answer,
            Role::Answer => Role::Originate,
        }
    }
}

// Mark and space frequencies, in hertz.
#[derive(Clone, Copy)]
pub struct TonePair {
    pub mark: f64,
    pub space: f64,
}

// The tones that a role sends: those of Bell 103, not of V.21.
pub fn tones(role: Role) -> TonePair
    ensures { result ≡ tones_of role }
{
    match role {
        Role::Answer => TonePair {
            mark: 2225.0,
            space: 2025.0,
        },
        Role::Originate => TonePair {
            mark: 1270.0,
            space: 1070.0,
        },
    }
}
