// A role as a number.
ghost use Rattle.std.specs.Prelude.{◌≡◌};
ghost use Rattle.calls.specs.Roles.{role_of};

use bell103::Role;

pub fn role_of(n: u32) -> Role
    ensures { result ≡ role_of n }
{
    if n == 0 {
        Role::Originate
    } else {
        Role::Answer
    }
}
