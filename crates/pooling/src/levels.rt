// Levels, in centimetres, by their order.
ghost use Rattle.std.specs.Prelude.{◌≡◌};
ghost use Rattle.pooling.specs.Pool as plain;

// The middle of three levels.
#[tactic(auto, unfolding(crate::specs::Pool::middle, crate::specs::Pool::lower, crate::specs::Pool::higher))]
pub(crate) fn middle(x: i16, y: i16, z: i16) -> i16
    ensures { result ≡ plain.middle x y z }
{
    x.min(y).max(x.max(y).min(z))
}
