// Arrays of one value: what a call lends before it is written.
ghost use Rattle.std.specs.Prelude.{◌≡◌, replicate};

// As many places as the type says, all with x.
pub fn filled<T: Copy, const N: usize>(x: T) -> [T; N]
    ensures { result ≡ replicate N x }
{
    [x; N]
}
