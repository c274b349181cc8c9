// A carrier event as numbers.
ghost use Rattle.std.specs.Prelude.{◌≡◌, length};
ghost use Rattle.demodulation.specs.Demod.{events_of};
ghost use Rattle.calls.specs.Answers.{bit_in};

use demodulation::Carrier;

// 1 for up, 0 for down and for no event.
pub(crate) fn event_byte(e: Option<Carrier>) -> u8
    ensures { result ≡ bit_in (events_of e) }
{
    match e {
        None => 0,
        Some(Carrier::Up) => 1,
        Some(Carrier::Down) => 0,
    }
}

// How many events that is: one, or none.
pub(crate) fn events_in(e: Option<Carrier>) -> usize
    ensures { result ≡ length (events_of e) }
{
    match e {
        None => 0,
        Some(Carrier::Up) => 1,
        Some(Carrier::Down) => 1,
    }
}
