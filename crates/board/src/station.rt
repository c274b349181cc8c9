// The station that `new` is given.
ghost use Rattle.std.specs.Prelude.{◌≡◌};
ghost use Rattle.board.specs.Station.{checked};

use refusal::Refusal;

// Refusal 2, where 1 does not apply.
#[tactic(auto, unfolding(crate::specs::Station::checked))]
pub fn check_station(answer: Result<(), Refusal>, station: u16) -> Result<(), Refusal>
    ensures { result ≡ checked answer station }
{
    match answer {
        Err(_) => answer,
        Ok(()) => {
            if station == 0 {
                return Err(Refusal::Station);
            }
            Ok(())
        }
    }
}
