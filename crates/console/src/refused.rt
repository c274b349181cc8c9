// A refusal, told in one line on standard error.
ghost use Rattle.std.specs.Prelude.{◌≡◌};
ghost use Rattle.refusal.specs.Refusals.{number_of};

use refusal::Refusal;

// Why, of the refusals that the programs tell.
fn reason(r: Refusal) -> &'static [u8] {
    match r {
        Refusal::Rate => b": RATE is a number from 8000 to 48000",
        Refusal::Station => b": STATION is a number from 1 to 65535",
        Refusal::TooManyLengths => b": there are more than 1000 lengths",
        Refusal::TooManyBits => b": a length is more than 1048576 bits",
        Refusal::NoSettings => b": the store has no good line",
        Refusal::StoreFull => b": the store has no room for a line",
        Refusal::TooManyCalls => b": a month has at most 5000 calls",
        Refusal::CallTooLong => b": a call has at most 4294967296 samples",
        _ => b"",
    }
}

// The program's name, the refusal's number, and why. Answers the number that it told.
pub fn complain_of(program: &[u8], r: Refusal) -> u32
    ensures { result ≡ number_of r }
{
    let number = u32::from(r);
    io::write_all(2, program);
    io::write_all(2, b": ");
    io::print_decimal(2, number as u64);
    io::write_all(2, reason(r));
    io::write_all(2, b"\n");
    number
}
